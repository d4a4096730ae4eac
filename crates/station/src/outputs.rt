// The output bytes: eight outputs to a byte, the lowest bit first.
ghost use Rattle.std.specs.Prelude.{◌≡◌, ℕ, ◌+◌, ◌<◌, ◌≤◌, length};
ghost use Rattle.block.specs.Of.{meaning};
ghost use Rattle.station.specs.Image.{bit_at, outputs_size};
ghost use Rattle.station.specs.Outputs.{output_on, Shows, OutsWithin};
ghost use Rattle.station.specs.Scans.{at, on_in};

use block::{Block, Mode};

// The row of each output beside the blocks of the rows: each output has its block.
#[derive(Drop)]
pub(crate) struct Outputs<'a, B> {
    pub outs: &'a [u8],
    pub table: &'a [B],
    ghost within: { OutsWithin outs.now (length table.now) },
}

impl<B: Block> Outputs<'_, B> {
    // Whether output i is on.
    fn is_on(&self, i: usize) -> bool
        ensures { result ≡ output_on self.now.outs.now (on_in (meaning B.Block) (at (meaning B.Block) self.now.table.now)) i }
    {
        self.outs
            .get(i)
            .is_some_and(|row| self.table[*row as usize].mode() == Mode::On)
    }

    // The byte whose lowest bit is output `base`.
    fn byte(&self, base: usize) -> u8
        requires { base ≤ 8 }
        ensures { (j : ℕ) → j < 8 → bit_at result j ≡ output_on self.now.outs.now (on_in (meaning B.Block) (at (meaning B.Block) self.now.table.now)) (base + j) }
    {
        let mut byte: u8 = 0;
        // The number is the place of a bit.
        for j in 0..8usize {
            if self.is_on(base + j) {
                byte += 1 << j;
            }
        }
        byte
    }

    // Writes each output's bit.
    pub(crate) fn show(&self, bytes: &mut [u8])
        requires { length bytes.old ≡ outputs_size }
        ensures { Shows self.now.outs.now (on_in (meaning B.Block) (at (meaning B.Block) self.now.table.now)) bytes.new }
    {
        bytes[0] = self.byte(0);
        bytes[1] = self.byte(8);
    }
}
