// What the log program answers to a whole input, on lists: definitions and laws (specs/). There is no code.
#![tactic(auto)]
