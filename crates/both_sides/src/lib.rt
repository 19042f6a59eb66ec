// The lines of paper 01, "On both sides of a line", that are marked (P): one statement over one list, in specs/.
#![tactic(auto)]
