// A small machine of two fans that share a cell, and demand 3 of it: definitions and laws alone.

#![tactic(auto)]
