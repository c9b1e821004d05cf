// Laws of the definitions in crates/spec_columns, for records of any width. It holds no code.
#![tactic(auto)]
