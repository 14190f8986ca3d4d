#![tactic(auto)]

// Laws of the tables of nodes and of the checks that the rules speak of: see proofs/. There is no code here.
