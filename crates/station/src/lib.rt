// The station: loading, scanning and halting a table of any one kind of block.
#![tactic(auto)]

pub mod needs;
pub mod outputs;
pub mod refusal;
pub mod report;
pub mod request;
pub mod rows;
pub mod station;
pub mod theorems;

pub use refusal::{LoadRefusal, Refusal};
pub use request::Request;
pub use station::Station;
