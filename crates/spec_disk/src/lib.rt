// Job 9 on a disk that loses or reorders what was not flushed: definitions, promises, and cases that compute. It holds
// no code.
#![tactic(auto)]
