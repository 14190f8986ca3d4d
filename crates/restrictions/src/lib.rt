// What users of the restriction rely on: see proofs/. There is no code here.
#![tactic(auto)]
