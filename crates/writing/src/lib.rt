// Words are trees: the writing of syntax trees as words, and what the rules read in them. See specs/ and proofs/. There
// is no code here.
#![tactic(auto)]
