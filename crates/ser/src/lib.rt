//! The writer: calls into tables, closing, and write-out.
#![tactic(auto)]

mod desk;
mod enter;
mod loads;
mod out;
pub mod records;
mod store;
pub mod writer;
