// The catalogue: the kinds of block that a sheet can name, and one enum over them.
#![tactic(auto)]

ghost use Rattle.catalogue.specs.Catalogue.{catalogue};
ghost use Rattle.catalogue.specs.Members.{catalogue_steps};

use block::{Block, Code, Input, Kind, Mode, Rising, Setup, Word};

pub mod gate;
pub mod stop;

pub use gate::{And, GateState, Or};
pub use stop::{Stop, StopSettings, StopState};

// A block of any kind; it behaves as that kind does. An enum and no `dyn`: a block is a plain copyable value in lent memory.
#[derive(Clone, Copy)]
pub enum Catalogue {
    And(And),
    Or(Or),
    Estop(Stop),
}

impl Block for Catalogue {
    ghost mode = { catalogue.mode };

    ghost clear = { catalogue.clear };

    ghost latched = { catalogue.latched };

    ghost releases = { catalogue.releases };

    ghost next = { catalogue.next };

    ghost made = { catalogue.made };

    ghost code = { catalogue.code };

    ghost requests = { catalogue.requests };

    ghost laws = { catalogue_steps };

    fn make(setup: Setup) -> Catalogue {
        match setup.settings.kind() {
            Kind::And => Catalogue::And(And::make(setup)),
            Kind::Or => Catalogue::Or(Or::make(setup)),
            Kind::Estop => Catalogue::Estop(Stop::make(setup)),
        }
    }

    fn step(self, input: Input) -> Catalogue {
        match self {
            Catalogue::And(b) => Catalogue::And(b.step(input)),
            Catalogue::Or(b) => Catalogue::Or(b.step(input)),
            Catalogue::Estop(b) => Catalogue::Estop(b.step(input)),
        }
    }

    fn mode(&self) -> Mode {
        match self {
            Catalogue::And(b) => b.mode(),
            Catalogue::Or(b) => b.mode(),
            Catalogue::Estop(b) => b.mode(),
        }
    }

    fn code(&self) -> Code {
        match self {
            Catalogue::And(b) => b.code(),
            Catalogue::Or(b) => b.code(),
            Catalogue::Estop(b) => b.code(),
        }
    }

    fn requests_reset(&self) -> bool {
        match self {
            Catalogue::And(b) => b.requests_reset(),
            Catalogue::Or(b) => b.requests_reset(),
            Catalogue::Estop(b) => b.requests_reset(),
        }
    }

    fn is_clear(&self, word: Word) -> bool {
        match self {
            Catalogue::And(b) => b.is_clear(word),
            Catalogue::Or(b) => b.is_clear(word),
            Catalogue::Estop(b) => b.is_clear(word),
        }
    }

    fn comes_on() {}
}

impl Rising for Catalogue {
    fn rises() {}
}
