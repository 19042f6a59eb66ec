// Any number of calls on a book, one after the other: definitions and laws (specs/). There is no code.
#![tactic(auto)]
