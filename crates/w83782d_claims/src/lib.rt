// What is claimed of the W83782D, and why it holds: bus accesses, samples and SMI, demand 3, the marked figures.
// Definitions and laws alone, so that a wrong definition is tried in seconds.

#![tactic(auto)]
