// Laws of storing and reading records by column, on any image bytes. It holds no code.
#![tactic(auto)]
