// What the calls at a desk answer.
use crate::report::Report;
use station::{LoadRefusal, Refusal};

// What the station answers to a call.
#[derive(Clone, Copy)]
pub enum Reply {
    Loaded(Result<(), LoadRefusal>),
    Scanned(Result<(), Refusal>),
    Halted(Result<(), Refusal>),
    Reported(Result<Report, Refusal>),
    Needs(Result<u64, Refusal>),
}

// The reply to a call, with the first two output bytes as they stand then.
#[derive(Clone, Copy)]
pub struct Answer {
    pub reply: Reply,
    pub outputs: [u8; 2],
}
