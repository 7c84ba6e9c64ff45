// Channels do not lean on each other: the statement in specs/, its proof in proofs/.
#![tactic(auto)]
