// Laws of the words of games: see proofs/. There is no code here.
#![tactic(auto)]
