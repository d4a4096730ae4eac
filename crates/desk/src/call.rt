// One call of the station, by what it is lent.
ghost use Rattle.block.specs.Of.{meaning};
ghost use Rattle.desk.specs.Calls.{Called};

use crate::answer::Reply;
use crate::report::Report;
use crate::request::Call;
use block::Block;
use script::Command;
use station::Station;

// What the station answers to a call. Table and output bytes stay two arguments, as the station's own calls take them.
pub(crate) fn call_station<B: Block>(
    station: &mut Station,
    call: &Call,
    table: &mut [B],
    outputs: &mut [u8],
) -> Reply
    ensures { Called (meaning B.Block) call.now result station.old station.new table.old table.new outputs.old outputs.new }
{
    match call {
        Call::Load(sheet) => Reply::Loaded(station.load(sheet, table, outputs)),
        Call::Command(Command::Scan { image, elapsed }) => {
            Reply::Scanned(station.scan(table, image.bytes(), *elapsed, outputs))
        }
        Call::Command(Command::Halt) => Reply::Halted(station.halt(table, outputs)),
        Call::Command(Command::Report { row, size }) => {
            Reply::Reported(Report::of_row(station, table, *row, *size))
        }
        Call::Command(Command::Needs { output }) => Reply::Needs(station.needs(table, *output)),
    }
}
