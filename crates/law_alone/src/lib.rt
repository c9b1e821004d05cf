// Demand 3 and its cases on one image follow from those over one image or two, in proofs/. It holds no code.
#![tactic(auto)]
