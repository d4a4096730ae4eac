// Diagnostic codes: one table of every code that a block shows.
ghost use Rattle.std.specs.Prelude.{◌≡◌};
ghost use Rattle.block.specs.Codes.{code_line, number_of, ready_of, error_of, Agrees};

// A code, named by its four hexadecimal digits.
#[derive(Clone, Copy, PartialEq, Eq)]
pub enum Code {
    H0000,
    H8000,
    H8001,
    H83E2,
    H83F2,
    H8402,
    H8404,
    H8802,
    H8804,
    HC001,
    HC011,
    HC3E0,
    HC3F0,
}

// A line of the table: the code's number, and whether it means ready and error.
#[derive(Clone, Copy, PartialEq, Eq)]
pub struct CodeLine {
    pub number: u16,
    pub ready: bool,
    pub error: bool,
}

const fn line(number: u16, ready: bool, error: bool) -> CodeLine
    ensures { result ≡ record { number = number; ready = ready; error = error } }
{
    CodeLine {
        number,
        ready,
        error,
    }
}

impl Code {
    // The code's line in the table; its ready and error are those that its number tells.
    pub fn line(self) -> CodeLine
        ensures line { result ≡ code_line self }
        ensures agrees { Agrees result }
    {
        match self {
            Code::H0000 => line(0x0000, false, false),
            Code::H8000 => line(0x8000, true, false),
            Code::H8001 => line(0x8001, true, false),
            Code::H83E2 => line(0x83E2, true, false),
            Code::H83F2 => line(0x83F2, true, false),
            Code::H8402 => line(0x8402, true, false),
            Code::H8404 => line(0x8404, true, false),
            Code::H8802 => line(0x8802, true, false),
            Code::H8804 => line(0x8804, true, false),
            Code::HC001 => line(0xC001, true, true),
            Code::HC011 => line(0xC011, true, true),
            Code::HC3E0 => line(0xC3E0, true, true),
            Code::HC3F0 => line(0xC3F0, true, true),
        }
    }

    // A method and no `From`: it names which part of the line is wanted.
    pub fn number(self) -> u16
        ensures { result ≡ number_of self }
    {
        self.line().number
    }

    // Whether the code tells that the block is active.
    pub fn is_ready(self) -> bool
        ensures { result ≡ ready_of (number_of self) }
    {
        self.line().ready
    }

    // Whether the code tells a fault.
    pub fn is_error(self) -> bool
        ensures { result ≡ error_of (number_of self) }
    {
        self.line().error
    }
}
