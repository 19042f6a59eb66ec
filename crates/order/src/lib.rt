// How two numbers stand: what std::cmp::Ordering is in the comparison's laws. There is no code.
#![tactic(auto)]
