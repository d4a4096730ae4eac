// What is wrong with a sheet, by layer; each fault holds the number of its line.
ghost use Rattle.std.specs.Prelude.{◌≡◌, ℕ, List};
ghost use Rattle.sheet.specs.declared.fault.Told.{Told};
ghost use Rattle.sheet.specs.declared.fault.RowFault.TheVariants.{Text};
ghost use Rattle.sheet.specs.declared.fault.WiringFault.TheVariants.{Row};
ghost use Rattle.sheet.specs.Faults.{text_told, row_told, wiring_told};
ghost use Rattle.sheet.specs.Words.{text_reason, row_reason, wiring_reason};

// Who has to mend a fault: the typist, the one who sets up a row, or the one who draws the wiring.
#[derive(Clone, Copy, PartialEq, Eq)]
pub enum Layer {
    Text,
    Row,
    Wiring,
}

// A fault that the text alone shows.
#[derive(Clone, Copy, PartialEq, Eq)]
pub enum TextFault {
    TooLong,
    Malformed(u16),
    Limit(u16),
    Trailing(u16),
}

// A fault of the text, or one that a row's settings or the times show.
#[derive(Clone, Copy, PartialEq, Eq)]
pub enum RowFault {
    Text(TextFault),
    NotAllowed(u16),
    BadTimes(u16),
}

// A fault of a row, or one that shows only against the other rows.
#[derive(Clone, Copy, PartialEq, Eq)]
pub enum WiringFault {
    Row(RowFault),
    NotEarlier(u16),
    NotOnSheet(u16),
}

impl From<TextFault> for RowFault {
    ghost from_gives = { λ t f. f ≡ Text t };

    fn from(fault: TextFault) -> RowFault {
        RowFault::Text(fault)
    }
}

impl From<RowFault> for WiringFault {
    ghost from_gives = { λ t f. f ≡ Row t };

    fn from(fault: RowFault) -> WiringFault {
        WiringFault::Row(fault)
    }
}

// What a refusal tells: its number, its line of the sheet, counted from 1, or 0 for the whole sheet, and its layer.
#[derive(Clone, Copy)]
pub struct Told {
    pub number: u8,
    pub line: u16,
    pub layer: Layer,
}

impl Told {
    fn new(number: u8, line: u16, layer: Layer) -> Told
        ensures { (result.number ≡ number) × (result.line ≡ line) × (result.layer ≡ layer) }
    {
        Told {
            number,
            line,
            layer,
        }
    }
}

// A fault of some layer: what its refusal tells, and why, in words that the one who wires the machine understands.
pub trait Fault: Copy {
    ghost told: { Self → Told };

    ghost reason: { Self → List ℕ };

    fn told(self) -> Told
        ensures { result ≡ told self };

    fn reason(self) -> &'static str
        ensures { result.now ≡ reason self };

    // The refusal's number; a method and no `From`, since a fault tells three things.
    fn number(self) -> u8
        ensures { result ≡ (told self).number }
    {
        self.told().number
    }

    // The line of the sheet, counted from 1; 0 for the whole sheet.
    fn line(self) -> u16
        ensures { result ≡ (told self).line }
    {
        self.told().line
    }

    fn layer(self) -> Layer
        ensures { result ≡ (told self).layer }
    {
        self.told().layer
    }
}

impl Fault for TextFault {
    ghost told = { text_told };

    ghost reason = { text_reason };

    fn told(self) -> Told {
        match self {
            TextFault::TooLong => Told::new(11, 0, Layer::Text),
            TextFault::Malformed(line) => Told::new(12, line, Layer::Text),
            TextFault::Limit(line) => Told::new(13, line, Layer::Text),
            TextFault::Trailing(line) => Told::new(17, line, Layer::Text),
        }
    }

    fn reason(self) -> &'static str {
        match self {
            TextFault::TooLong => "the sheet has more than 4096 bytes",
            TextFault::Malformed(_) => "this line is missing or is not written as it must be",
            TextFault::Limit(_) => "a number in this line is outside its limits",
            TextFault::Trailing(_) => "something follows the last line",
        }
    }
}

impl Fault for RowFault {
    ghost told = { row_told };

    ghost reason = { row_reason };

    fn told(self) -> Told {
        match self {
            RowFault::Text(fault) => fault.told(),
            RowFault::NotAllowed(line) => Told::new(15, line, Layer::Row),
            RowFault::BadTimes(line) => Told::new(16, line, Layer::Row),
        }
    }

    fn reason(self) -> &'static str {
        match self {
            RowFault::Text(fault) => fault.reason(),
            RowFault::NotAllowed(_) => "only an estop may have this setting at 1",
            RowFault::BadTimes(_) => "min must be at least 100, and max at least min",
        }
    }
}

impl Fault for WiringFault {
    ghost told = { wiring_told };

    ghost reason = { wiring_reason };

    fn told(self) -> Told {
        match self {
            WiringFault::Row(fault) => fault.told(),
            WiringFault::NotEarlier(line) => Told::new(14, line, Layer::Wiring),
            WiringFault::NotOnSheet(line) => Told::new(14, line, Layer::Wiring),
        }
    }

    fn reason(self) -> &'static str {
        match self {
            WiringFault::Row(fault) => fault.reason(),
            WiringFault::NotEarlier(_) => "a source must be an earlier row",
            WiringFault::NotOnSheet(_) => "the row of this output is not on the sheet",
        }
    }
}
