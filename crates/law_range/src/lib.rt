// Laws of the definitions in crates/spec_range, of any image bytes. It holds no code.
#![tactic(auto)]
