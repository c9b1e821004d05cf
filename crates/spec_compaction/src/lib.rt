// Document 02, Job 2: compaction as a definition, and cases of it. It holds no code; that is in crates/call_compact.
#![tactic(auto)]
