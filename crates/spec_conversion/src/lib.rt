// Document 02, Job 11: the converter as a definition, and cases of it. It holds no code; that is in
// crates/call_convert.
#![tactic(auto)]
