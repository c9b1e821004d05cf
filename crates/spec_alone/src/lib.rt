// Lists of calls on one image: demand 3 and its cases as they were stated before growth, word for word. Definitions
// alone; the proof is in crates/law_alone.
#![tactic(auto)]
