// Demand 3: the file and the plain control book agree on every list of calls. It holds proofs and no code; the
// statement is `Agreement` of crates/spec_book/specs/Demand.antt.
#![tactic(auto)]
