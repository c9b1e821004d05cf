// Laws of growth as crates/spec_growth defines it, of any image bytes, in proofs/. It holds no code.
#![tactic(auto)]
