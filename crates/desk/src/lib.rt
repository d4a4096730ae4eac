// A station at a desk: it serves a list of requests, and each call answers.
#![tactic(auto)]

pub mod answer;
pub mod call;
pub mod desk;
pub mod report;
pub mod request;
pub mod text;

pub use answer::{Answer, Reply};
pub use desk::Desk;
pub use report::Report;
pub use request::{Call, Request};
pub use text::answer_text;
