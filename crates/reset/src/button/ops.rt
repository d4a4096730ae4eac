// Making, stepping and reading the reset button.
ghost use Rattle.std.specs.Prelude.{◌≡◌, false};
ghost use Rattle.block.specs.Codes.{number_of};
ghost use Rattle.reset.specs.Limits.{button_allowed, read_back, parameter_error, parameter_error_due};
ghost use Rattle.reset.specs.Machine.{made_button, button_next, requested_next, pressed_next, entering, button_code, is_pulse};
ghost use Rattle.reset.specs.Plain.{plain};

use super::ResetButton;
use crate::fields::{ButtonFields, ButtonState, ResetInput};
use block::times::ops::{LONGEST_PRESS, SHORTEST_PRESS, are_times_allowed};
use block::{Code, Times};

// The one lawful button that fields outside the limits are read as.
const FIXED_BUTTON: ButtonFields = ButtonFields {
    state: ButtonState::Idle,
    time: 0,
    min: SHORTEST_PRESS,
    max: LONGEST_PRESS,
};

// Whether plain fields keep the limits of the record.
pub fn are_fields_allowed(fields: ButtonFields) -> bool
    ensures { result ≡ button_allowed fields.min fields.max fields.time }
{
    are_times_allowed(fields.min, fields.max) && fields.time <= fields.max
}

// Fields that break a limit are read as those of one fixed button.
impl From<ButtonFields> for ResetButton {
    ghost from_gives = { λ f b. plain b ≡ read_back f };

    fn from(fields: ButtonFields) -> ResetButton {
        if are_fields_allowed(fields) {
            ResetButton { fields }
        } else {
            ResetButton {
                fields: FIXED_BUTTON,
            }
        }
    }
}

impl From<ResetButton> for ButtonFields {
    ghost from_gives = { λ b f. f ≡ plain b };

    fn from(button: ResetButton) -> ButtonFields {
        button.fields
    }
}

impl ResetButton {
    // The button as a sheet's times make it, idle.
    pub fn new(times: Times) -> ResetButton
        ensures { plain result ≡ made_button times }
    {
        ResetButton {
            fields: ButtonFields {
                state: ButtonState::Idle,
                time: 0,
                min: times.min(),
                max: times.max(),
            },
        }
    }

    // The code. The parameter error is never due, since every value keeps the limits of its times, and never shows.
    pub fn code(&self) -> Code
        ensures code { result ≡ button_code (plain self.now).state }
        ensures never_due { parameter_error_due (plain self.now).min (plain self.now).max ≡ false }
        ensures never_shown { number_of result ≡ parameter_error → ⊥ }
    {
        self.fields.state.code()
    }

    // One step: answers pulse and code together, a pair, as a rule of the library asks; the layer above takes it apart.
    pub fn step(&mut self, input: ResetInput) -> (bool, Code)
        ensures after { plain self.new ≡ button_next (plain self.old) input }
        ensures answers { result ≡ (is_pulse (plain self.new).state, button_code (plain self.new).state) }
    {
        if input.requested {
            self.follow(input);
        } else {
            self.enter(ButtonState::Idle);
        }
        (self.fields.state == ButtonState::Pulse, self.code())
    }

    // A step while a reset is requested.
    fn follow(&mut self, input: ResetInput)
        ensures { plain self.new ≡ requested_next (plain self.old).state (plain self.old) input }
    {
        let rise = input.now && !input.before;
        match self.fields.state {
            ButtonState::Idle if input.now => self.enter(ButtonState::StuckOn),
            ButtonState::Idle => self.enter(ButtonState::WaitForRise),
            ButtonState::WaitForRise if input.now => self.enter(ButtonState::WaitForFall),
            ButtonState::WaitForFall if input.now || input.before => self.hold(input),
            ButtonState::WaitForFall => self.enter(ButtonState::WaitForRise),
            ButtonState::Pulse => self.enter(ButtonState::WaitForRise),
            ButtonState::StuckOn if !input.now => self.enter(ButtonState::WaitForRise),
            ButtonState::TooLong | ButtonState::TooShort if rise => {
                self.enter(ButtonState::WaitForFall)
            }
            _ => {}
        }
    }

    // A step of a pressed button: the elapsed time is added to its running time.
    fn hold(&mut self, input: ResetInput)
        ensures { plain self.new ≡ pressed_next (plain self.old) input }
    {
        let time = u32::from(self.fields.time) + u32::from(input.elapsed);
        if time > u32::from(self.fields.max) {
            self.enter(ButtonState::TooLong);
        } else if input.now {
            self.fields.time = time as u16;
        } else if time < u32::from(self.fields.min) {
            self.enter(ButtonState::TooShort);
        } else {
            self.enter(ButtonState::Pulse);
        }
    }

    // Goes to a state, with time 0.
    fn enter(&mut self, state: ButtonState)
        ensures { plain self.new ≡ entering (plain self.old) state }
    {
        self.fields.state = state;
        self.fields.time = 0;
    }
}
