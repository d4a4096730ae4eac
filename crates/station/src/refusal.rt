// What the station's calls refuse.
ghost use Rattle.std.specs.Prelude.{◌≡◌};
ghost use Rattle.station.specs.declared.refusal.LoadRefusal.TheVariants.{Sheet};
ghost use Rattle.station.specs.Refusals.{refusal_number, load_number};

use sheet::{Fault, WiringFault};

#[derive(Clone, Copy, PartialEq, Eq)]
pub enum Refusal {
    // Table, image or output bytes are not 32 blocks, 8 and 2 bytes.
    Sizes,
    // The elapsed time is 0 or over 1,000 milliseconds.
    Elapsed,
    // The row or output is not on the sheet.
    Number,
    // The place for a report is under 54 bytes.
    Place,
}

impl Refusal {
    // A method and no `From`, alike for both: a refused loading tells more than a number.
    pub fn number(self) -> u8
        ensures { result ≡ refusal_number self }
    {
        match self {
            Refusal::Sizes => 21,
            Refusal::Elapsed => 22,
            Refusal::Number => 23,
            Refusal::Place => 24,
        }
    }
}

// What a loading refuses.
#[derive(Clone, Copy)]
pub enum LoadRefusal {
    // Table or output bytes are not 32 blocks and 2 bytes.
    Lent,
    // The sheet is refused, with its fault.
    Sheet(WiringFault),
}

impl From<WiringFault> for LoadRefusal {
    ghost from_gives = { λ f r. r ≡ Sheet f };

    fn from(fault: WiringFault) -> Self {
        Self::Sheet(fault)
    }
}

impl LoadRefusal {
    pub fn number(self) -> u8
        ensures { result ≡ load_number self }
    {
        match self {
            LoadRefusal::Lent => Refusal::Sizes.number(),
            LoadRefusal::Sheet(fault) => fault.number(),
        }
    }
}
