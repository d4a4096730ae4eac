// The button as it lies in lent memory, and what a step of it brings.
ghost use Rattle.std.specs.Prelude.{◌≡◌};
ghost use Rattle.reset.specs.Machine.{button_code};

use block::Code;

// The button's states, each with one diagnostic code.
#[derive(Clone, Copy, PartialEq, Eq)]
pub enum ButtonState {
    Idle,
    WaitForRise,
    WaitForFall,
    Pulse,
    StuckOn,
    TooLong,
    TooShort,
}

impl ButtonState {
    pub fn code(self) -> Code
        ensures { result ≡ button_code self }
    {
        match self {
            ButtonState::Idle => Code::H0000,
            ButtonState::WaitForRise => Code::H83E2,
            ButtonState::WaitForFall => Code::H83F2,
            ButtonState::Pulse => Code::H8000,
            ButtonState::StuckOn => Code::HC001,
            ButtonState::TooLong => Code::HC3E0,
            ButtonState::TooShort => Code::HC3F0,
        }
    }
}

// The plain fields, with no invariant: time runs while the button is pressed.
#[derive(Clone, Copy)]
pub struct ButtonFields {
    pub state: ButtonState,
    pub time: u16,
    pub min: u16,
    pub max: u16,
}

// What a step brings: whether a reset is requested, the button now and before, the elapsed milliseconds.
#[derive(Clone, Copy)]
pub struct ResetInput {
    pub requested: bool,
    pub now: bool,
    pub before: bool,
    pub elapsed: u16,
}
