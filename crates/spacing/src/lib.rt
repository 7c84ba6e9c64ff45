// How far apart the words of a channel's schedule stand, over every list of calls: definitions and proofs only.
#![tactic(auto)]
