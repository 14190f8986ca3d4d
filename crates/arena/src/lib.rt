// Laws of the items and the pairs that the rules speak of: see proofs/. There is no code here.
#![tactic(auto)]
