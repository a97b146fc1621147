//! Both ends in one call: what is written is read back, and two lists of calls are told apart by their bytes.
#![tactic(auto)]

pub mod compare;
pub mod says;
pub mod steps;
pub mod trip;
pub mod write;
