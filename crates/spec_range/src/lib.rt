// Document 02, Job 13: ranges of key bytes as definitions, and cases. It holds no code; that is in crates/range_match
// and crates/call_select.
#![tactic(auto)]
