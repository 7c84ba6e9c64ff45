// What every accepted call on a channel leaves of what a history keeps: definitions in specs/, proofs in proofs/.
#![tactic(auto)]
