// What the demands and the rules are tried on: worthless cores, broken states, vectors. It has no function.
#![tactic(auto)]
