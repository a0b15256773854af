// What holds of the figures of a report: they add up, none wraps, and what is printed is the report. It has no function.
#![tactic(auto)]
