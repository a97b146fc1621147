//! What the node tables of a writer and of a reader have in common: the marks of nodes, the open places, and children by their index.
#![tactic(auto)]

pub mod children;
pub mod marks;
pub mod places;
