// What every accepted call leaves of a module's memory, and how a history's counts roll over: definitions in specs/, proofs in proofs/.
#![tactic(auto)]
