// Demand 3, once for any chip: how long a plan is in force over lists of calls, and the claim.
// Definitions and laws alone; crate `fan_settings` has where a fan's settings are, and sets them.

#![tactic(auto)]
