// Document 01's plain control book, and demand 3 as a statement: definitions and cases. It holds no code; the proof is
// in crates/law_agreement.
#![tactic(auto)]
