// Needs lists: the terminals that must be on for a row to be on, as masks with bit t for terminal t.
ghost use Rattle.std.specs.Prelude.{◌≡◌, ℕ, ◌<◌, ◌≤◌, true, ◌&&◌, ◌||◌, ◌↔◌, length};
ghost use Rattle.block.specs.Of.{meaning};
ghost use Rattle.sheet.specs.Wired.{source_wired};
ghost use Rattle.station.specs.Image.{bit_at, table_size};
ghost use Rattle.station.specs.Masks.{masked, word_number, pins_cover, PinMasks};
ghost use Rattle.station.specs.Needs.{terminals, source_needs, RowNeeds, Needs, clear_in};
ghost use Rattle.station.specs.Rows.{row_at};
ghost use Rattle.station.specs.Scans.{at};
ghost use Rattle.arrayvec.specs.ArrayVec.{array_vec_len};
ghost use Rattle.station.specs.Wires.{Wired, WiredRow};

use crate::rows::Placed;
use arrayvec::ArrayVec;
use block::{Block, Word};
use sheet::Row;
use values::Source;

// The most rows of a sheet.
const MOST_ROWS: usize = 32;

// The word whose pins are the bits of a number.
fn word_of_number(n: u8) -> Word
    ensures { result ≡ word_number n }
{
    Word {
        pin0: n % 2 == 1,
        pin1: n / 2 % 2 == 1,
        pin2: n / 4 % 2 == 1,
        pin3: n / 8 % 2 == 1,
    }
}

// A mask, or nothing.
fn mask_if(on: bool, mask: u64) -> u64
    ensures { (t : ℕ) → bit_at result t ≡ (on && bit_at mask t) }
{
    if on { mask } else { 0 }
}

// The terminals that the pins which are on in a word need.
fn word_mask(pins: [u64; 4], word: Word) -> u64
    ensures { (t : ℕ) → bit_at result t ≡ pins_cover pins t word }
{
    let [pin0, pin1, pin2, pin3] = pins;
    mask_if(word.pin0, pin0)
        | (mask_if(word.pin1, pin1) | (mask_if(word.pin2, pin2) | mask_if(word.pin3, pin3)))
}

// The terminals that every clear word needs.
fn word_masks<B: Block>(block: &B, pins: [u64; 4]) -> u64
    ensures { (t : ℕ) → t < terminals → (bit_at result t ≡ true) ↔ ((n : ℕ) → n < 16 → (meaning B.Block).clear block.now (word_number n) ≡ true → pins_cover pins t (word_number n) ≡ true) }
{
    let mut all = u64::MAX;
    // The number is a word, a pin to a bit.
    for n in 0..16u8 {
        let word = word_of_number(n);
        if block.is_clear(word) {
            all &= word_mask(pins, word);
        }
    }
    all
}

// Before the row stand the masks of the earlier rows.
impl Placed<'_, u64> {
    // The terminals that a source of the row needs.
    fn source_mask(&self, source: Source) -> u64
        requires { source_wired (length self.now.earlier.now) source ≡ true }
        ensures { (t : ℕ) → t < terminals → bit_at result t ≡ source_needs (masked self.now.earlier.now) t source }
    {
        match source {
            Source::Zero => u64::MAX,
            Source::One => 0,
            Source::Terminal(terminal) => 1 << terminal,
            Source::Row(j) => self.earlier[j as usize],
        }
    }

    // The terminals that the row's pins need.
    fn pin_masks(&self) -> [u64; 4]
        ensures { PinMasks (masked self.now.earlier.now) self.now.row.now result }
    {
        let [pin0, pin1, pin2, pin3] = self.row.pins;
        [
            self.source_mask(pin0),
            self.source_mask(pin1),
            self.source_mask(pin2),
            self.source_mask(pin3),
        ]
    }

    // The terminals that the row needs, by the clear words of its block.
    fn mask<B: Block>(&self, block: &B) -> u64
        ensures { (t : ℕ) → t < terminals → (bit_at result t ≡ true) ↔ RowNeeds ((meaning B.Block).clear block.now) (masked self.now.earlier.now) self.now.row.now t }
    {
        self.source_mask(self.row.act) | word_masks(block, self.pin_masks())
    }
}

// The terminals that each row needs, by the clear words of its block in the table. Rows and table stay two arguments, as in a scan.
pub(crate) fn row_masks<B: Block>(rows: &[Row], table: &[B]) -> ArrayVec<u64, MOST_ROWS>
    requires rows_len_bound { length rows.now ≤ table_size }
    requires rows_in_bounds { length rows.now ≤ length table.now }
    requires wired { Wired rows.now }
    ensures needs { Needs (clear_in (meaning B.Block) (at (meaning B.Block) table.now)) rows.now (masked result.items) }
    ensures len { array_vec_len result ≡ length rows.now }
{
    let mut masks = ArrayVec::new();
    for (row, block) in rows.iter().zip(table) {
        let placed = Placed {
            row,
            earlier: masks.as_slice(),
        };
        let mask = placed.mask(block);
        masks.push(mask);
    }
    masks
}
