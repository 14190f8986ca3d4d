#![tactic(auto)]

// Laws of the lists that the rules speak of: see proofs/. There is no code here.
