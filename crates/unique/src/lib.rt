// Each call that the outside uses has one answer: definitions and laws in specs/, over the calls' own contracts.
#![tactic(auto)]
