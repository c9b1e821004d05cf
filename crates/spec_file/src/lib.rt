// The control point file as document 01 states it: definitions in specs/, cases of them in proofs/. It holds no code.
#![tactic(auto)]
