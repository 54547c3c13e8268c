// Laws on lists and orders that more than one crate cites. There is no code.
#![tactic(auto)]
