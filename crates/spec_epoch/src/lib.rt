// Document 02, Job 14: epochs of monitoring prisms as definitions, and cases of them. It holds no code; that is in
// crates/epoch_choose and crates/call_at_epoch.
#![tactic(auto)]
