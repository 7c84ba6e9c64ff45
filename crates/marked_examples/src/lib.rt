// Paper 01's examples marked P, proved about the definitions: specs/ has the list, proofs/ the one proof over it.
#![tactic(auto)]
