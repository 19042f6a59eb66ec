// What the comparison has: the mirror law, and the lines that speak of it (specs/). There is no code.
#![tactic(auto)]
