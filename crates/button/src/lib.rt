// The button layer: one rising block under one reset button.
#![tactic(auto)]

ghost use Rattle.block.specs.Of.{meaning};
ghost use Rattle.button.specs.Button.{buttoned};
ghost use Rattle.button.specs.Laws.{button_steps};

use block::{Block, Code, Input, Mode, Rising, Setup, Word};
use reset::{ButtonFields, ResetButton, ResetInput};

pub mod inner;

pub use inner::{HasInner, button_is_its_inner};

// A rising block that gets the pulse of its reset button in place of the reset bit.
#[derive(Clone, Copy)]
pub struct Button<B> {
    pub inner: B,
    pub button: ButtonFields,
}

impl<B: Rising> Block for Button<B> {
    ghost mode = { (buttoned (meaning B.Block)).mode };

    ghost clear = { (buttoned (meaning B.Block)).clear };

    ghost latched = { (buttoned (meaning B.Block)).latched };

    ghost releases = { (buttoned (meaning B.Block)).releases };

    ghost next = { (buttoned (meaning B.Block)).next };

    ghost made = { (buttoned (meaning B.Block)).made };

    ghost code = { (buttoned (meaning B.Block)).code };

    ghost requests = { (buttoned (meaning B.Block)).requests };

    ghost laws = { button_steps (meaning B.Block.own) B.laws };

    fn make(setup: Setup) -> Button<B> {
        Button {
            inner: B::make(setup),
            button: ResetButton::new(setup.times).into(),
        }
    }

    fn step(self, input: Input) -> Button<B> {
        let mut button = ResetButton::from(self.button);
        let (pulse, _code) = button.step(ResetInput {
            requested: input.active && self.inner.mode() == Mode::Waiting,
            now: input.now,
            before: input.before,
            elapsed: input.elapsed,
        });
        let inner = self.inner.step(Input {
            now: pulse,
            before: false,
            ..input
        });
        Button {
            inner,
            button: button.into(),
        }
    }

    fn mode(&self) -> Mode {
        match self.inner.mode() {
            Mode::Waiting if ResetButton::from(self.button).code().is_error() => Mode::Fault,
            mode => mode,
        }
    }

    fn code(&self) -> Code {
        match self.inner.mode() {
            Mode::Waiting => ResetButton::from(self.button).code(),
            _ => self.inner.code(),
        }
    }

    fn requests_reset(&self) -> bool {
        self.inner.requests_reset()
    }

    fn is_clear(&self, word: Word) -> bool {
        self.inner.is_clear(word)
    }

    fn comes_on() {
        B::rises();
    }
}
