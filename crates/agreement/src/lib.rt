// The agreement argument of paper 001, Section 5, over any notes, configurations and quorum rule.
// Nothing here runs: specs/ has the machine and what is promised of it, proofs/ shows that it holds.
#![tactic(auto)]
