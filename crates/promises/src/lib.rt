// What the demands ask of every run of events, and that the core meets it. It has no function.
#![tactic(auto)]
