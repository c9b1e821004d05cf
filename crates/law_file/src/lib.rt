// Laws of the specification in crates/spec_file, of any image bytes, in proofs/. It holds no code.
#![tactic(auto)]
