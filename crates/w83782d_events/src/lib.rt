// What an event is to the rest: the call that it is of demand 3, what it latches in 41h and 42h, what it clears there.
// And looks, which are no events, and lists of calls without them. Definitions and laws alone, so that a wrong
// definition is tried in seconds.

#![tactic(auto)]
