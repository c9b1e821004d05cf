// Document 02, Job 10: records and their columns as definitions, and cases. It holds no code; that is in
// crates/columns_width, crates/columns_write and crates/columns_read.
#![tactic(auto)]
