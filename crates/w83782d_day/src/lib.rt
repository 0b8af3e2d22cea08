// The figures of a day's log, one record after another and by its records alone, and that both are the same
// however the log was cut. Definitions and laws alone, so that a wrong definition is tried in seconds.

#![tactic(auto)]
