// The due lines with what the wiring has to keep: a source is an earlier row, an output's row is on the sheet.
// Each fault is turned into the next alone, so a text's goes up by two steps.
ghost use Rattle.sheet.specs.Sheet.{act_due, pins_due, out_due};
ghost use Rattle.sheet.specs.Steps.{WiringStep};

use crate::fault::{RowFault, WiringFault};
use crate::limits::{are_earlier, is_earlier, is_on_sheet};
use crate::reader::Reader;
use crate::text_lines;
use values::Source;

// Here and in row_lines a test stands as a guard: of `then_some(..).ok_or(..)` in its place the check found no proof.
pub fn read_act(reader: &mut Reader, row: u8) -> Result<Source, WiringFault>
    ensures { WiringStep (act_due row) reader.old reader.new result }
{
    let act = text_lines::read_act(reader).map_err(RowFault::from)?;
    if !is_earlier(act, row) {
        return Err(WiringFault::NotEarlier(reader.line()));
    }
    Ok(act)
}

pub fn read_pins(reader: &mut Reader, row: u8) -> Result<[Source; 4], WiringFault>
    ensures { WiringStep (pins_due row) reader.old reader.new result }
{
    let pins = text_lines::read_pins(reader).map_err(RowFault::from)?;
    if !are_earlier(&pins, row) {
        return Err(WiringFault::NotEarlier(reader.line()));
    }
    Ok(pins)
}

// The row of an output, on a sheet of `count` rows.
pub fn read_out(reader: &mut Reader, count: u8) -> Result<u8, WiringFault>
    ensures { WiringStep (out_due count) reader.old reader.new result }
{
    let row = text_lines::read_out(reader).map_err(RowFault::from)?;
    if !is_on_sheet(row, count) {
        return Err(WiringFault::NotOnSheet(reader.line()));
    }
    Ok(row)
}
