// The gates: a block that is on exactly while its pins pass a test.
ghost use Rattle.std.specs.Prelude.{◌≡◌, Bool};
ghost use Rattle.block.specs.declared.types.Word.{Word};
ghost use Rattle.catalogue.specs.Gate.{all_pins, any_pin, gate_mode, gate_code, gate_next, gate};
ghost use Rattle.catalogue.specs.Members.{gate_steps};

use block::{Block, Code, Input, Mode, Rising, Setup, Word};
use std::marker::PhantomData;

// A test of the four pins, by which one gate differs from another.
pub trait PinTest: Copy {
    ghost passed: { Word → Bool };

    fn passes(word: Word) -> bool
        ensures { result ≡ passed word };
}

// All four pins are on.
#[derive(Clone, Copy)]
pub struct AllPins;

impl PinTest for AllPins {
    ghost passed = { all_pins };

    fn passes(word: Word) -> bool {
        word.pin0 && word.pin1 && word.pin2 && word.pin3
    }
}

// Some pin is on.
#[derive(Clone, Copy)]
pub struct AnyPin;

impl PinTest for AnyPin {
    ghost passed = { any_pin };

    fn passes(word: Word) -> bool {
        word.pin0 || word.pin1 || word.pin2 || word.pin3
    }
}

#[derive(Clone, Copy, PartialEq, Eq)]
pub enum GateState {
    Idle,
    Off,
    On,
}

impl GateState {
    pub fn mode(self) -> Mode
        ensures { result ≡ gate_mode self }
    {
        match self {
            GateState::Idle => Mode::Idle,
            GateState::Off => Mode::Off,
            GateState::On => Mode::On,
        }
    }

    pub fn code(self) -> Code
        ensures { result ≡ gate_code self }
    {
        match self {
            GateState::Idle => Code::H0000,
            GateState::Off => Code::H8802,
            GateState::On => Code::H8000,
        }
    }

    // The state after a step.
    pub fn after(active: bool, clear: bool) -> GateState
        ensures { result ≡ gate_next active clear }
    {
        match (active, clear) {
            (false, _) => GateState::Idle,
            (true, false) => GateState::Off,
            (true, true) => GateState::On,
        }
    }
}

#[derive(Clone, Copy)]
pub struct Gate<T> {
    pub state: GateState,
    pub test: PhantomData<T>,
}

pub type And = Gate<AllPins>;

pub type Or = Gate<AnyPin>;

impl<T: PinTest> Block for Gate<T> {
    ghost mode = { (gate T.PinTest.passed).mode };

    ghost clear = { (gate T.PinTest.passed).clear };

    ghost latched = { (gate T.PinTest.passed).latched };

    ghost releases = { (gate T.PinTest.passed).releases };

    ghost next = { (gate T.PinTest.passed).next };

    ghost made = { (gate T.PinTest.passed).made };

    ghost code = { (gate T.PinTest.passed).code };

    ghost requests = { (gate T.PinTest.passed).requests };

    ghost laws = { gate_steps T.PinTest.passed };

    fn make(_setup: Setup) -> Gate<T> {
        Gate {
            state: GateState::Idle,
            test: PhantomData,
        }
    }

    fn step(self, input: Input) -> Gate<T> {
        Gate {
            state: GateState::after(input.active, T::passes(input.word)),
            ..self
        }
    }

    fn mode(&self) -> Mode {
        self.state.mode()
    }

    fn code(&self) -> Code {
        self.state.code()
    }

    fn requests_reset(&self) -> bool {
        self.mode() == Mode::Waiting
    }

    fn is_clear(&self, word: Word) -> bool {
        T::passes(word)
    }

    fn comes_on() {}
}

impl<T: PinTest> Rising for Gate<T> {
    fn rises() {}
}
