// Laws of one event of the core: refused or done, soundness kept, no second answer. It has no function.
#![tactic(auto)]
