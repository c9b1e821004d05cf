// What an add or a delete leaves as it was, on any image: all bytes but those that it may write. It holds laws and no
// code.
#![tactic(auto)]
