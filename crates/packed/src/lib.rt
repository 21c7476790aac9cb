// The packed form: definitions (specs/) and laws over them (proofs/). There is no code here.
#![tactic(auto)]
