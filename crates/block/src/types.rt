// The plain values of the interface: modes, words of pins, the input of a step, kinds of block.
ghost use Rattle.std.specs.Prelude.{◌≡◌, Some};
ghost use Rattle.std.specs.Fmt.{styled_text};
ghost use Rattle.block.specs.Modes.{mode_word};

use std::fmt;

// What a block is doing. Waiting means that it is clear and asks for its reset.
#[derive(Clone, Copy, PartialEq, Eq)]
pub enum Mode {
    Idle,
    Off,
    Waiting,
    On,
    Fault,
}

impl Mode {
    // The mode as reports name it.
    pub fn word(self) -> &'static str
        ensures { result.now ≡ mode_word self }
    {
        match self {
            Mode::Idle => "idle",
            Mode::Off => "off",
            Mode::Waiting => "wait",
            Mode::On => "on",
            Mode::Fault => "fault",
        }
    }
}

impl fmt::Display for Mode {
    ghost output = { λ m. Some (mode_word m) };

    ghost styled_output = { λ m s. Some (styled_text s (mode_word m)) };

    fn fmt<W: fmt::Write>(&self, f: &mut fmt::Formatter<W>) -> fmt::Result {
        f.pad(self.word())
    }
}

// The four safe input bits of a row, pin 0 to pin 3.
#[derive(Clone, Copy, PartialEq, Eq)]
pub struct Word {
    pub pin0: bool,
    pub pin1: bool,
    pub pin2: bool,
    pub pin3: bool,
}

// What one step brings: now and before are the reset bit in this scan and in the last.
#[derive(Clone, Copy, PartialEq, Eq)]
pub struct Input {
    pub active: bool,
    pub word: Word,
    pub now: bool,
    pub before: bool,
    pub elapsed: u16,
}

// The kinds of block that a sheet can name.
#[derive(Clone, Copy, PartialEq, Eq)]
pub enum Kind {
    And,
    Or,
    Estop,
}
