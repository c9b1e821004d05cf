// What an image is in the middle of a compaction, stage by stage, and laws of its steps. It holds no code.
#![tactic(auto)]
