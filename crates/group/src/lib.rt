// The group layer: two rising blocks of one row as one rising block.
#![tactic(auto)]

ghost use Rattle.std.specs.Prelude.{◌≡◌};
ghost use Rattle.block.specs.Of.{meaning};
ghost use Rattle.group.specs.Laws.{group_steps};
ghost use Rattle.group.specs.Group.{turned, turned_input, joint_mode, shows_second, grouped};

use block::{Block, Code, Input, Mode, Rising, Setup, Word};

pub mod members;

pub use members::{HasMembers, group_is_its_members};

// Two blocks that are stepped together; the second sees the row's pins 2, 3, 0, 1.
#[derive(Clone, Copy)]
pub struct Group<A, B> {
    pub first: A,
    pub second: B,
}

// The word that the second member sees.
pub fn turned_word(word: Word) -> Word
    ensures { result ≡ turned word }
{
    Word {
        pin0: word.pin2,
        pin1: word.pin3,
        pin2: word.pin0,
        pin3: word.pin1,
    }
}

// The step that the second member gets: the same but for its word.
pub fn turned_step(input: Input) -> Input
    ensures { result ≡ turned_input input }
{
    Input {
        word: turned_word(input.word),
        ..input
    }
}

// The group's mode: the first that fits decides.
pub fn mode_of_two(first: Mode, second: Mode) -> Mode
    ensures { result ≡ joint_mode first second }
{
    match (first, second) {
        (Mode::Fault, _) | (_, Mode::Fault) => Mode::Fault,
        (Mode::Idle, _) | (_, Mode::Idle) => Mode::Idle,
        (Mode::On, Mode::On) => Mode::On,
        (Mode::Off, _) | (_, Mode::Off) => Mode::Off,
        _ => Mode::Waiting,
    }
}

// Whether the group shows the code of its second member.
pub fn is_second_shown(first: Mode, second: Mode) -> bool
    ensures { result ≡ shows_second first second }
{
    match (first, second) {
        (Mode::On, _) => true,
        (Mode::Fault, _) => false,
        (_, Mode::Fault) => true,
        _ => false,
    }
}

impl<A: Rising, B: Rising> Block for Group<A, B> {
    ghost mode = { (grouped (meaning A.Block) (meaning B.Block)).mode };

    ghost clear = { (grouped (meaning A.Block) (meaning B.Block)).clear };

    ghost latched = { (grouped (meaning A.Block) (meaning B.Block)).latched };

    ghost releases = { (grouped (meaning A.Block) (meaning B.Block)).releases };

    ghost next = { (grouped (meaning A.Block) (meaning B.Block)).next };

    ghost made = { (grouped (meaning A.Block) (meaning B.Block)).made };

    ghost code = { (grouped (meaning A.Block) (meaning B.Block)).code };

    ghost requests = { (grouped (meaning A.Block) (meaning B.Block)).requests };

    ghost laws = { group_steps (meaning A.Block.own) (meaning B.Block.own) A.laws B.laws };

    fn make(setup: Setup) -> Group<A, B> {
        Group {
            first: A::make(setup),
            second: B::make(setup),
        }
    }

    fn step(self, input: Input) -> Group<A, B> {
        Group {
            first: self.first.step(input),
            second: self.second.step(turned_step(input)),
        }
    }

    fn mode(&self) -> Mode {
        mode_of_two(self.first.mode(), self.second.mode())
    }

    fn code(&self) -> Code {
        if is_second_shown(self.first.mode(), self.second.mode()) {
            self.second.code()
        } else {
            self.first.code()
        }
    }

    fn requests_reset(&self) -> bool {
        self.mode() == Mode::Waiting
    }

    fn is_clear(&self, word: Word) -> bool {
        self.first.is_clear(word) & self.second.is_clear(turned_word(word))
    }

    fn comes_on() {
        <Group<A, B> as Rising>::rises();
    }
}

impl<A: Rising, B: Rising> Rising for Group<A, B> {
    fn rises() {
        A::rises();
        B::rises();
    }
}
