// Whole-word stores, of which each covers the excess of the one before: what they promise (specs/) and the laws over it (proofs/). There is no
// code here.
#![tactic(auto)]
