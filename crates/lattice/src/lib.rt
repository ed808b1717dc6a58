//! The theory of the class tree, over the parts of a unit: the order of kinds, the least kind above two, and heights.
#![tactic(auto)]
