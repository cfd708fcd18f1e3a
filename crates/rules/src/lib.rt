#![tactic(auto)]
// The rules of the 2002 paper as relations, and that the answer of a round as defined is what they give. There is no code here.
