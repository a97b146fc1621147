//! Columns: lists of numbers of one width, as bytes. One interface, its laws, and three kinds.
#![tactic(auto)]

mod coded;
pub mod fault;
pub mod flat;
pub mod interface;
pub mod short;
pub mod steps;
pub mod trip;
pub mod width;
