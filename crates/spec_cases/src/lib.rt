// More cases of file and book, by computation, and that an image within the old limits keeps every byte. It holds no
// code. The cases that a must-fail edit names stand beside the definitions that it edits.
#![tactic(auto)]
