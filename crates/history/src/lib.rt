// No code: what a store holds after a list of loads, and that their order does not matter (specs/Demand3).
#![tactic(auto)]
