// Reading the report of a row, and its bytes.
ghost use Rattle.std.specs.Prelude.{◌≡◌};
ghost use Rattle.block.specs.Of.{meaning};
ghost use Rattle.desk.specs.Replies.{report_bytes, ReportAnswers};
ghost use Rattle.station.specs.Reads.{Reads};

use super::{MOST_ROOM, Report};
use block::Block;
use station::{Refusal, Station};

impl Report {
    pub fn bytes(&self) -> &[u8]
        ensures { result.now ≡ report_bytes self.now }
    {
        &self.place[..self.size]
    }

    // The report of a row on a place of so many bytes, at most 64.
    pub fn of_row<B: Block>(
        station: &Station,
        table: &[B],
        row: u32,
        size: u8,
    ) -> Result<Report, Refusal>
        ensures answer { ReportAnswers (meaning B.Block) result station.now table.now row size }
        ensures history { Reads (meaning B.Block) station.now table.now }
    {
        let mut place = [0; MOST_ROOM];
        let room = usize::from(size).min(MOST_ROOM);
        let size = station.report(table, row, &mut place[..room])?;
        Ok(Report { place, size })
    }
}
