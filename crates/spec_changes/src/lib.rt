// Document 02, Jobs 8 and 9: what changed between two images, and the journal of an update. It holds definitions and
// their laws, and no code.
#![tactic(auto)]
