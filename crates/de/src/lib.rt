//! The reader: questions, the columns that they need, and the handing out of texts.
#![tactic(auto)]

mod columns;
mod desk;
mod heard;
mod histogram;
pub mod reader;
pub mod records;
mod respond;
mod store;
mod take;
pub mod texts;
mod view;
