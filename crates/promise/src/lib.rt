// What the parlour promises of every run: demand 3, stated over the rules of the steps.
// Nothing here runs: specs/ has the statement, proofs/ shows that it holds.
#![tactic(auto)]
