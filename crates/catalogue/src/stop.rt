// The emergency stop.
ghost use Rattle.std.specs.Prelude.{◌≡◌};
ghost use Rattle.catalogue.specs.Stop.{stop_mode, stop_code, stop_next, off_next, ready_next, fault_next, estop};
ghost use Rattle.catalogue.specs.Members.{stop_steps};

use block::{Block, Code, Input, Mode, Rising, Setup, Word};

pub mod settings;

pub use settings::StopSettings;

// First is before the stop has been on, again is after.
#[derive(Clone, Copy, PartialEq, Eq)]
pub enum StopState {
    Idle,
    Init,
    FirstOff,
    FirstReady,
    FirstFault,
    On,
    AgainOff,
    AgainReady,
    AgainFault,
}

// The stop as it lies in lent memory; pin 0 on means that no button is pressed in.
#[derive(Clone, Copy)]
pub struct Stop {
    pub settings: StopSettings,
    pub state: StopState,
}

impl StopState {
    pub fn mode(self) -> Mode
        ensures { result ≡ stop_mode self }
    {
        match self {
            StopState::Idle => Mode::Idle,
            StopState::Init | StopState::FirstOff | StopState::AgainOff => Mode::Off,
            StopState::FirstReady | StopState::AgainReady => Mode::Waiting,
            StopState::On => Mode::On,
            StopState::FirstFault | StopState::AgainFault => Mode::Fault,
        }
    }

    pub fn code(self) -> Code
        ensures { result ≡ stop_code self }
    {
        match self {
            StopState::Idle => Code::H0000,
            StopState::Init => Code::H8001,
            StopState::FirstOff => Code::H8802,
            StopState::FirstReady => Code::H8402,
            StopState::FirstFault => Code::HC001,
            StopState::On => Code::H8000,
            StopState::AgainOff => Code::H8804,
            StopState::AgainReady => Code::H8404,
            StopState::AgainFault => Code::HC011,
        }
    }
}

// The states of a phase: before the stop has been on, or after.
#[derive(Clone, Copy)]
struct Phase {
    off: StopState,
    ready: StopState,
    fault: StopState,
}

const FIRST: Phase = Phase {
    off: StopState::FirstOff,
    ready: StopState::FirstReady,
    fault: StopState::FirstFault,
};

const AGAIN: Phase = Phase {
    off: StopState::AgainOff,
    ready: StopState::AgainReady,
    fault: StopState::AgainFault,
};

impl Phase {
    // From off, in a phase in which the stop comes on by itself or not.
    fn off_next(self, by_itself: bool, input: Input) -> StopState
        ensures { result ≡ off_next self by_itself input }
    {
        match (by_itself, input.now, input.word.pin0) {
            (false, true, _) => self.fault,
            (_, _, false) => self.off,
            (true, _, true) => StopState::On,
            (false, false, true) => self.ready,
        }
    }

    // From ready, where the stop goes off without a clear word and on at a rise.
    fn ready_next(self, input: Input) -> StopState
        ensures { result ≡ ready_next self input }
    {
        let rise = input.now && !input.before;
        match (input.word.pin0, rise) {
            (false, _) => self.off,
            (true, true) => StopState::On,
            (true, false) => self.ready,
        }
    }

    // From a fault, which leaves once the reset is off.
    fn fault_next(self, input: Input) -> StopState
        ensures { result ≡ fault_next self input }
    {
        if input.now { self.fault } else { self.off }
    }
}

// The state after an active step.
pub fn stop_next(settings: StopSettings, state: StopState, input: Input) -> StopState
    ensures { result ≡ stop_next settings state input }
{
    match state {
        StopState::Idle => StopState::Init,
        StopState::Init | StopState::FirstOff => FIRST.off_next(settings.start(), input),
        StopState::FirstReady => FIRST.ready_next(input),
        StopState::FirstFault => FIRST.fault_next(input),
        StopState::On if !input.word.pin0 => StopState::AgainOff,
        StopState::On => StopState::On,
        StopState::AgainOff => AGAIN.off_next(settings.auto(), input),
        StopState::AgainReady => AGAIN.ready_next(input),
        StopState::AgainFault => AGAIN.fault_next(input),
    }
}

impl Block for Stop {
    ghost mode = { estop.mode };

    ghost clear = { estop.clear };

    ghost latched = { estop.latched };

    ghost releases = { estop.releases };

    ghost next = { estop.next };

    ghost made = { estop.made };

    ghost code = { estop.code };

    ghost requests = { estop.requests };

    ghost laws = { stop_steps };

    fn make(setup: Setup) -> Stop {
        Stop {
            settings: StopSettings::new(setup.settings.start(), setup.settings.auto()),
            state: StopState::Idle,
        }
    }

    fn step(self, input: Input) -> Stop {
        let state = if input.active {
            stop_next(self.settings, self.state, input)
        } else {
            StopState::Idle
        };
        Stop { state, ..self }
    }

    // As in a gate, the state tells mode and code; a trait over states would be longer than these two pairs of lines.
    fn mode(&self) -> Mode {
        self.state.mode()
    }

    fn code(&self) -> Code {
        self.state.code()
    }

    fn requests_reset(&self) -> bool {
        self.mode() == Mode::Waiting
    }

    fn is_clear(&self, word: Word) -> bool {
        word.pin0
    }

    fn comes_on() {}
}

impl Rising for Stop {
    fn rises() {}
}
