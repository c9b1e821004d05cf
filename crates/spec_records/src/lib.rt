// Document 02, Job 10: storing and reading records by column as calls, by definition, and cases. It holds no code; that
// is in crates/columns_store and crates/columns_fetch.
#![tactic(auto)]
