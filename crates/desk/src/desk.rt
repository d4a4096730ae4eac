// A station at a desk, where each call is lent the first blocks of one table and the first of some output bytes.
use station::Station;

pub mod run;
pub mod serve;

#[derive(Drop)]
pub struct Desk {
    station: Station,
    // How many blocks and output bytes a call is lent.
    blocks: usize,
    bytes: usize,
}
