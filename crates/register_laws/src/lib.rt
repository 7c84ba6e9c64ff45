// What holds of registers on any memory: a written value is read again, and memory of another layout is refused. Statements in specs/, proofs in proofs/.
#![tactic(auto)]
