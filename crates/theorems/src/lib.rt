// What is certain of the calls, stated over their promises: proofs/ reads as the list. There is no code here.
#![tactic(auto)]
