// Laws of epochs as crates/spec_epoch defines them, of any image bytes, in proofs/. It holds no code.
#![tactic(auto)]
