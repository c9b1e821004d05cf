// Document 02, Job 12: the start of growth and a point's move from one image to another as definitions, and cases of
// them. It holds no code; that is in the growth_ crates.
#![tactic(auto)]
