// A target in the middle of a conversion, as definitions with their laws. It holds no code; that is in the other
// convert_ crates.
#![tactic(auto)]
