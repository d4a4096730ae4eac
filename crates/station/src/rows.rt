// The rows of a wiring: what a scan brings each, and the loops over them.
ghost use Rattle.std.specs.Prelude.{◌≡◌, ℕ, ◌<◌, ◌≤◌, true, length};
ghost use Rattle.block.specs.Of.{meaning};
ghost use Rattle.sheet.specs.Wired.{source_wired, reset_wired};
ghost use Rattle.sheet.specs.Wires.{listed};
ghost use Rattle.station.specs.Image.{bit_of};
ghost use Rattle.station.specs.Loads.{Filled};
ghost use Rattle.station.specs.Rows.{source_on, word_of, reset_on, input_of};
ghost use Rattle.station.specs.Scans.{at, on_in, Scanned, Halted};
ghost use Rattle.station.specs.Wires.{Wired, WiredRow};

use block::{Block, Input, Mode, Setup, Word};
use sheet::{Row, Wiring};
use values::Source;

// Whether a terminal is on in an image.
fn is_terminal_on(image: &[u8; 8], terminal: u8) -> bool
    requires { terminal ≤ 63 }
    ensures { result ≡ bit_of image.now terminal }
{
    (image[(terminal / 8) as usize] >> (terminal % 8)) % 2 == 1
}

// The reset bit of a row in an image.
fn is_reset_on(reset: Option<u8>, image: &[u8; 8]) -> bool
    requires { reset_wired reset ≡ true }
    ensures { result ≡ reset_on image.now reset }
{
    reset.is_some_and(|terminal| is_terminal_on(image, terminal))
}

// A row with what stands for each row before it: its sources are constants, terminals and earlier rows.
#[derive(Drop)]
pub(crate) struct Placed<'a, X> {
    pub row: &'a Row,
    pub earlier: &'a [X],
    ghost wired: { WiredRow (length earlier.now) row.now },
}

// Before the row stand the blocks of the earlier rows, as they are in this scan.
impl<B: Block> Placed<'_, B> {
    // Whether a source of the row is on.
    fn is_on(&self, source: Source, image: &[u8; 8]) -> bool
        requires { source_wired (length self.now.earlier.now) source ≡ true }
        ensures { result ≡ source_on image.now (on_in (meaning B.Block) (at (meaning B.Block) self.now.earlier.now)) source }
    {
        match source {
            Source::Zero => false,
            Source::One => true,
            Source::Terminal(terminal) => is_terminal_on(image, terminal),
            Source::Row(j) => self.earlier[j as usize].mode() == Mode::On,
        }
    }

    fn word(&self, image: &[u8; 8]) -> Word
        ensures { result ≡ word_of image.now (on_in (meaning B.Block) (at (meaning B.Block) self.now.earlier.now)) self.now.row.now }
    {
        let [pin0, pin1, pin2, pin3] = self.row.pins;
        Word {
            pin0: self.is_on(pin0, image),
            pin1: self.is_on(pin1, image),
            pin2: self.is_on(pin2, image),
            pin3: self.is_on(pin3, image),
        }
    }

    // The row's step.
    fn input(&self, image: &[u8; 8], last: &[u8; 8], elapsed: u16) -> Input
        ensures { result ≡ input_of image.now last.now elapsed (on_in (meaning B.Block) (at (meaning B.Block) self.now.earlier.now)) self.now.row.now }
    {
        Input {
            active: self.is_on(self.row.act, image),
            word: self.word(image),
            now: is_reset_on(self.row.reset, image),
            before: is_reset_on(self.row.reset, last),
            elapsed,
        }
    }
}

// Steps the block of each row in order. Rows and table stay two arguments, here and below: of a table that a field lends by `&mut` a proof knows little.
pub(crate) fn scan_rows<B: Block>(
    rows: &[Row],
    image: &[u8; 8],
    last: &[u8; 8],
    elapsed: u16,
    table: &mut [B],
)
    requires rows_in_bounds { length rows.now ≤ length table.old }
    requires wired { Wired rows.now }
    ensures { Scanned (meaning B.Block) rows.now image.now last.now elapsed (at (meaning B.Block) table.old) (at (meaning B.Block) table.new) }
{
    // The index is a rule of the scan: row k reads the blocks before k as this scan left them.
    for (k, row) in rows.iter().enumerate() {
        let placed = Placed {
            row,
            earlier: &table[..k],
        };
        let input = placed.input(image, last, elapsed);
        table[k] = table[k].step(input);
    }
}

// Makes the block of each row.
pub(crate) fn fill_rows<B: Block>(wiring: &Wiring, table: &mut [B])
    requires { length (listed wiring.now) ≤ length table.old }
    ensures { Filled (meaning B.Block) wiring.now (at (meaning B.Block) table.old) (at (meaning B.Block) table.new) }
{
    let times = wiring.times();
    // By index: of what a loop over `iter_mut` zipped with the rows writes, a proof knows nothing after it.
    for (k, row) in wiring.rows().iter().enumerate() {
        table[k] = B::make(Setup {
            settings: row.settings,
            times,
        });
    }
}

// Gives the block of each row the inactive step of a halt.
pub(crate) fn idle_rows<B: Block>(rows: &[Row], table: &mut [B])
    requires { length rows.now ≤ length table.old }
    ensures { Halted (meaning B.Block) rows.now (at (meaning B.Block) table.old) (at (meaning B.Block) table.new) }
{
    let input = Input {
        active: false,
        word: Word {
            pin0: false,
            pin1: false,
            pin2: false,
            pin3: false,
        },
        now: false,
        before: false,
        elapsed: 0,
    };
    let listed = &mut table[..rows.len()];
    for block in listed.iter_mut() {
        *block = block.step(input);
    }
}
