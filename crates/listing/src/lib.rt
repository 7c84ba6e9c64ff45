// What a service desk may rely on in mailbox mode, over every list of calls: definitions and proofs only.
#![tactic(auto)]
