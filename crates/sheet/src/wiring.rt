// What a sheet says: rows, outputs and times, within the sheet's rules in every value.
// No file of specs/ that names the record is imported here.
ghost use Rattle.std.specs.Prelude.{◌≡◌, true};
ghost use Rattle.sheet.specs.Wired.{wiring_allowed};

use crate::row::Row;
use block::Times;

pub mod ops;

// `count` rows and `outputs` outputs, each with its row; what stands past them in the tables is blank.
// Tables of a fixed size beside their counts: a wiring is `Copy`, which the kit's `ArrayVec` would not be, and a heap is barred.
#[derive(Clone, Copy)]
pub struct Wiring {
    times: Times,
    count: u8,
    rows: [Row; 32],
    outputs: u8,
    outs: [u8; 16],
    ghost allowed: { wiring_allowed count rows outputs outs ≡ true },
}
