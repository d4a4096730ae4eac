// The values of a sheet's lines: how each is written, and the readers of single values.
// Functions and no `TryFrom`: most values are numbers and options, at which no impl of this crate can stand, and one form serves all.
#![tactic(auto)]

pub mod cut;
pub mod numbers;
pub mod source;
pub mod sources;
pub mod words;

pub use cut::cut_once;
pub use numbers::{parse_time, parse_two};
pub use source::Source;
pub use sources::{parse_pins, parse_reset, parse_row, parse_source};
pub use words::{parse_flag, parse_kind};
