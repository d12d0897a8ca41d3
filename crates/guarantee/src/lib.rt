// Demand 3: one theorem about every run of calls, every cut, and the recovery that follows. Definitions and proofs only.
#![tactic(auto)]
