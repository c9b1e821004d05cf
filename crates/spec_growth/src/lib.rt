// Document 02, Job 12: the calls during growth as definitions, and cases of them. It holds no code; that is in the
// growth_ crates and the call_grow crates.
#![tactic(auto)]
