// Demand 3 and what follows from it, in proofs/. It holds no code.
#![tactic(auto)]
