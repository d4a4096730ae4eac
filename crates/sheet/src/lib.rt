// The loader for wiring sheets: any bytes are read as the one wiring that they write, or refused.
#![tactic(auto)]

pub mod fault;
mod head;
mod limits;
pub mod load;
mod reader;
pub mod row;
mod row_lines;
mod text_lines;
pub mod theorems;
pub mod wiring;
mod wiring_lines;
pub mod words;

pub use fault::{Fault, Layer, RowFault, TextFault, Told, WiringFault};
pub use load::load_sheet;
pub use row::Row;
pub use theorems::{one_verdict, one_wiring, rules_in_order, texts_are_short};
pub use wiring::Wiring;
