// Laws of what a host calls: on a core that only these functions wrote, `core_inner` is `core_live`. It has no function.
#![tactic(auto)]
