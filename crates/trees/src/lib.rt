#![tactic(auto)]

// Laws of the trees that stand in tables of words, of equations and of readings: see proofs/. There is no code here.
