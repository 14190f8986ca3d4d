// Laws of the walk and of the reachable elements, for any element type: see specs/ and proofs/. There is no code here.
#![tactic(auto)]
