// Laws of compaction as crates/spec_compaction defines it, of any image bytes, in proofs/. It holds no code.
#![tactic(auto)]
