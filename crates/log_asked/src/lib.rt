// What a line of the log asks, and what is answered, set up and stored then (specs/). There is no code.
#![tactic(auto)]
