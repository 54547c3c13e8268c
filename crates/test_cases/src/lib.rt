// The worked cases that the requirements mark P, shown of the definitions. There is no code.
#![tactic(auto)]
