// No code: the edges of the rules are computed in specs/.
#![tactic(auto)]
