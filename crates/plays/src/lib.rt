#![tactic(auto)]
// The set plays of document 01, T10 as document 02 has it, as claims about the definitions of a round. There is no code here.
