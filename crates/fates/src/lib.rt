// Demand 3: after any list of calls a module's memory agrees with the history of the calls and answers. Definitions in specs/, proofs in proofs/.
#![tactic(auto)]
