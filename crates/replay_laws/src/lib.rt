// Laws of a run as text: filling to the end gives the whole text, and it is the run by public events. It has no function.
#![tactic(auto)]
