//! The tagged machine, as a definition: what a rule means, with every check that the board leaves out.
#![tactic(auto)]
