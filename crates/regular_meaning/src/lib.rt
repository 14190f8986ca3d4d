// What regular formulas in modalities mean, and that the expansion means the same: see specs/ and proofs/. There is no
// code here.
#![tactic(auto)]
