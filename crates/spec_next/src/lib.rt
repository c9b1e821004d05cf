// Where two images differ next: the first run of bytes that differ, from a place on. It holds a definition and its
// laws, and no code.
#![tactic(auto)]
