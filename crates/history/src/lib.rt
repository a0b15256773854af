// The history of a run: its moments, what they are, what they do to the queue, and the laws of each. It has no function.
#![tactic(auto)]
