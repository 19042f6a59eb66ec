// Choosing by ports and choosing once: they agree where the data of one grandmaster agree (specs/). There is no code.
#![tactic(auto)]
