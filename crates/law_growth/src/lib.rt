// During growth two images and the book agree, call by call, in proofs/. It holds no code.
#![tactic(auto)]
