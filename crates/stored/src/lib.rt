// Any number of the real calls on a lent store, one after the other: definitions and laws (specs/). There is no code.
#![tactic(auto)]
