// The block interface: what a block means, the laws that it keeps, and rising blocks.
#![tactic(auto)]

ghost use Rattle.std.specs.Prelude.{◌≡◌, Bool};
ghost use Rattle.block.specs.declared.code.Code.{Code};
ghost use Rattle.block.specs.declared.setup.Setup.{Setup};
ghost use Rattle.block.specs.declared.types.Input.{Input};
ghost use Rattle.block.specs.declared.types.Mode.{Mode};
ghost use Rattle.block.specs.declared.types.Word.{Word};
ghost use Rattle.block.specs.Laws.{StepLaws, WaitingCanComeOn};
ghost use Rattle.block.specs.Meaning.{meant};
ghost use Rattle.block.specs.Rises.{Rises};

pub mod code;
pub mod settings;
pub mod setup;
pub mod theorems;
pub mod times;
pub mod types;

pub use code::{Code, CodeLine};
pub use settings::Settings;
pub use setup::Setup;
pub use times::Times;
pub use types::{Input, Kind, Mode, Word};

// A safety function block: a plain value that is stepped once in each scan.
// Eight ghost members say what it means; specs/Meaning.antt has a line for each. That they are these, by name, is a rule of the library.
pub trait Block: Copy {
    ghost mode: { Self → Mode };

    ghost clear: { Self → Word → Bool };

    ghost latched: { Self → Bool };

    ghost releases: { Self → Input → Bool };

    ghost next: { Self → Input → Self };

    ghost made: { Setup → Self };

    ghost code: { Self → Code };

    ghost requests: { Self → Bool };

    // The block of a sheet's row, idle.
    fn make(setup: Setup) -> Self
        ensures { result ≡ made setup };

    // The block after one step.
    fn step(self, input: Input) -> Self
        ensures { result ≡ next self input };

    fn mode(&self) -> Mode
        ensures { result ≡ mode self.now };

    fn code(&self) -> Code
        ensures { result ≡ code self.now };

    // Whether the block asks for a reset. Most ask while they wait, but no default says so: under a button a fault asks too.
    fn requests_reset(&self) -> bool
        ensures { result ≡ requests self.now };

    fn is_clear(&self, word: Word) -> bool
        ensures { result ≡ clear self.now word };

    // Shows that a waiting block can always be brought on; it does nothing.
    fn comes_on()
        ensures { WaitingCanComeOn (meant mode clear latched releases next made code requests) };

    // That a made block is idle, and laws 1 to 11 and 13, a field for each: law 12 is what `comes_on` shows.
    ghost laws: { StepLaws (meant mode clear latched releases next made code requests) };
}

// A block that waits for a rise of the reset, and whose laws about quiet steps ask only that now is off.
pub trait Rising: Block {
    // Shows the promise of a rising block; it does nothing.
    fn rises()
        ensures { Rises (meant Self.Block.mode Self.Block.clear Self.Block.latched Self.Block.releases Self.Block.next Self.Block.made Self.Block.code Self.Block.requests) };
}
