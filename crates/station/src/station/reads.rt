// The calls that only read a station.
ghost use Rattle.std.specs.Prelude.{◌≡◌, length};
ghost use Rattle.block.specs.Of.{meaning};
ghost use Rattle.station.specs.Image.{table_size};
ghost use Rattle.station.specs.Reads.{Reads, NeedsOutcome, ReportOutcome};

use super::Station;
use crate::needs::row_masks;
use crate::refusal::Refusal;
use crate::report::write_report;
use block::Block;

impl Station {
    // The report of a row: six lines at the beginning of the place; answers their length.
    #[tactic(auto, using(crate::proofs::Reading::reads))]
    pub fn report<B: Block>(
        &self,
        table: &[B],
        row: u32,
        place: &mut [u8],
    ) -> Result<usize, Refusal>
        ensures answer { ReportOutcome (meaning B.Block) result self.now table.now row place.old place.new }
        ensures history { Reads (meaning B.Block) self.now table.now }
    {
        if table.len() != 32 {
            return Err(Refusal::Sizes);
        }
        let blocks = &table[..self.rows().len()];
        let block = blocks.get(row as usize).ok_or(Refusal::Number)?;
        if place.len() < 54 {
            return Err(Refusal::Place);
        }
        Ok(write_report(row as u8, block, place))
    }

    // The needs list of an output: bit t is on if terminal t must be on for the output to be on.
    #[tactic(auto, using(crate::proofs::Reading::reads))]
    pub fn needs<B: Block>(&self, table: &[B], output: u32) -> Result<u64, Refusal>
        ensures answer { NeedsOutcome (meaning B.Block) result self.now table.now output }
        ensures history { Reads (meaning B.Block) self.now table.now }
    {
        if table.len() != 32 {
            return Err(Refusal::Sizes);
        }
        let row = self.outs().get(output as usize).ok_or(Refusal::Number)?;
        let masks = row_masks(self.rows(), table);
        Ok(masks.as_slice()[*row as usize])
    }
}
