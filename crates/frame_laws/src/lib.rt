// What frames have: which are accepted, what is written is read back, and what is read is written again (specs/). There is no code.
#![tactic(auto)]
