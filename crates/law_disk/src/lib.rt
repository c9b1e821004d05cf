// What crates/spec_disk promises of a disk, proved. It holds no code.
#![tactic(auto)]
