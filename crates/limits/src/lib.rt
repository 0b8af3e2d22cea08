// Readings against their limits, by the cells that hold them: definitions and laws alone, for any chip.

#![tactic(auto)]
