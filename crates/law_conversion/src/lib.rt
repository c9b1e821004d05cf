// Document 02, Job 11: laws of the converter, of an accepted conversion. It holds no code; that is in
// crates/call_convert.
#![tactic(auto)]
