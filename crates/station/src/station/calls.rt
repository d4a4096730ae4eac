// The calls that change a station: load, scan and halt.
ghost use Rattle.std.specs.Prelude.{◌≡◌, ◌≤◌, length};
ghost use Rattle.block.specs.Of.{meaning};
ghost use Rattle.station.specs.Calls.{Scan, Halt, effect, scan_answer, halt_answer, elapsed_allowed, sizes_allowed};
ghost use Rattle.station.specs.Image.{table_size, outputs_size};
ghost use Rattle.station.specs.Loads.{LoadOutcome};
ghost use Rattle.station.specs.Promises.{GoesOn};
ghost use Rattle.station.specs.Stations.{CallLeaves, HaltLeaves};

use super::Station;
use crate::outputs::Outputs;
use crate::refusal::{LoadRefusal, Refusal};
use crate::rows::{fill_rows, idle_rows, scan_rows};
use block::Block;
use sheet::load::load_sheet;

// Whether a scan may bring this elapsed time.
fn is_elapsed_allowed(elapsed: u32) -> bool
    ensures { result ≡ elapsed_allowed elapsed }
{
    (1..=1000).contains(&elapsed)
}

// Whether so many blocks and output bytes are lent as a station works on.
fn are_sizes_allowed(blocks: usize, bytes: usize) -> bool
    ensures { result ≡ sizes_allowed blocks bytes }
{
    blocks == 32 && bytes == 2
}

// Table and output bytes stay two arguments, as a rule of the library gives the calls.
impl Station {
    // Loads a sheet: makes the blocks of its rows and switches the outputs off, or refuses and leaves all as found.
    pub fn load<B: Block>(
        &mut self,
        sheet: &[u8],
        table: &mut [B],
        outputs: &mut [u8],
    ) -> Result<(), LoadRefusal>
        ensures { LoadOutcome (meaning B.Block) result sheet.now self.old self.new table.old table.new outputs.old outputs.new }
    {
        if !are_sizes_allowed(table.len(), outputs.len()) {
            return Err(LoadRefusal::Lent);
        }
        let wiring = load_sheet(sheet)?;
        fill_rows(&wiring, table);
        outputs.fill(0);
        *self = Station {
            wiring: Some(wiring),
            last: [255; 8],
        };
        Ok(())
    }

    // One scan: steps every row, shows the outputs and remembers the image, or refuses; a bad elapsed time halts.
    #[tactic(auto, using(crate::proofs::Promises::goes_on))]
    pub fn scan<B: Block>(
        &mut self,
        table: &mut [B],
        image: &[u8],
        elapsed: u32,
        outputs: &mut [u8],
    ) -> Result<(), Refusal>
        ensures answer { result ≡ scan_answer (effect (Scan (length table.old) image.now elapsed (length outputs.old))) }
        ensures leaves { CallLeaves (meaning B.Block) (effect (Scan (length table.old) image.now elapsed (length outputs.old))) self.old self.new table.old table.new outputs.old outputs.new }
        ensures history { GoesOn (meaning B.Block) (Scan (length table.old) image.now elapsed (length outputs.old)) self.old self.new table.old table.new outputs.old outputs.new }
    {
        let image = image.as_array::<8>().ok_or(Refusal::Sizes)?;
        if !are_sizes_allowed(table.len(), outputs.len()) {
            return Err(Refusal::Sizes);
        }
        if !is_elapsed_allowed(elapsed) {
            self.idle(table, outputs);
            return Err(Refusal::Elapsed);
        }
        let last = self.last;
        scan_rows(self.rows(), image, &last, elapsed as u16, table);
        Outputs {
            outs: self.outs(),
            table,
        }
        .show(outputs);
        self.last = *image;
        Ok(())
    }

    // A halt: idles every row and switches the outputs off.
    #[tactic(auto, using(crate::proofs::Promises::goes_on))]
    pub fn halt<B: Block>(&mut self, table: &mut [B], outputs: &mut [u8]) -> Result<(), Refusal>
        ensures answer { result ≡ halt_answer (effect (Halt (length table.old) (length outputs.old))) }
        ensures leaves { CallLeaves (meaning B.Block) (effect (Halt (length table.old) (length outputs.old))) self.old self.new table.old table.new outputs.old outputs.new }
        ensures history { GoesOn (meaning B.Block) (Halt (length table.old) (length outputs.old)) self.old self.new table.old table.new outputs.old outputs.new }
    {
        if !are_sizes_allowed(table.len(), outputs.len()) {
            return Err(Refusal::Sizes);
        }
        self.idle(table, outputs);
        Ok(())
    }

    // What a halt does.
    fn idle<B: Block>(&mut self, table: &mut [B], outputs: &mut [u8])
        requires table_len { length table.old ≡ table_size }
        requires outputs_len { length outputs.old ≡ outputs_size }
        ensures { HaltLeaves (meaning B.Block) self.old self.new table.old table.new outputs.old outputs.new }
    {
        idle_rows(self.rows(), table);
        outputs.fill(0);
        self.last = [255; 8];
    }
}
