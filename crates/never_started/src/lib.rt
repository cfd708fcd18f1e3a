#![tactic(auto)]
// That a routine to which no chain of start steps leads is never started, as a claim about plays. There is no code here.
