// Theorems over whole days of calls, in specs/ and proofs/. There is no code: the calls are those of `calls`.
#![tactic(auto)]
