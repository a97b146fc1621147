//! What a document is: its calls and questions, its refusals, and the laws of whole runs.
#![tactic(auto)]

pub mod calls;
pub mod laws;
pub mod limits;
pub mod numbers;
pub mod questions;
pub mod refusals;
pub mod scalars;
