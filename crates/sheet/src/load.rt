// Reads a whole sheet: its head, its rows and its outputs. Each fault is turned into the next alone, so a text's goes up by two steps.
ghost use Rattle.std.specs.Prelude.{◌≡◌, true, Ok, MatchResult};
ghost use Rattle.sheet.specs.Loads.{text, Refused};
ghost use Rattle.sheet.specs.Tables.{RowAnswer, RowsAnswer, OutsAnswer, WiringAnswer};
ghost use Rattle.sheet.specs.Wired.{row_blank};

use crate::fault::{RowFault, WiringFault};
use crate::head::Head;
use crate::reader::Reader;
use crate::row::Row;
use crate::wiring::Wiring;
use crate::{row_lines, text_lines, wiring_lines};
use block::{Kind, Settings};
use values::Source;

// What stands past the rows of a sheet.
fn blank_row() -> Row
    ensures { row_blank result ≡ true }
{
    Row {
        settings: Settings::new(Kind::And, false, false).unwrap(),
        act: Source::Zero,
        pins: [Source::Zero; 4],
        reset: None,
    }
}

fn read_row(reader: &mut Reader, row: u8) -> Result<Row, WiringFault>
    ensures { RowAnswer row reader.old reader.new result }
{
    let kind = text_lines::read_kind(reader).map_err(RowFault::from)?;
    let act = wiring_lines::read_act(reader, row)?;
    let pins = wiring_lines::read_pins(reader, row)?;
    let reset = text_lines::read_reset(reader).map_err(RowFault::from)?;
    let start = row_lines::read_flag(reader, b"start=", kind)?;
    let auto = row_lines::read_flag(reader, b"auto=", kind)?;
    let settings = Settings::new(kind, start, auto).unwrap();
    Ok(Row {
        settings,
        act,
        pins,
        reset,
    })
}

// The rows of a sheet, and blank ones past them.
fn read_rows(reader: &mut Reader, head: Head) -> Result<[Row; 32], WiringFault>
    ensures { RowsAnswer head.count reader.old reader.new result }
{
    let mut rows = [blank_row(); 32];
    for (k, row) in rows[..head.count as usize].iter_mut().enumerate() {
        *row = read_row(reader, k as u8)?;
    }
    Ok(rows)
}

// The rows of a sheet's outputs, and 0 past them.
fn read_outs(reader: &mut Reader, head: Head) -> Result<[u8; 16], WiringFault>
    ensures { OutsAnswer head.count head.outputs reader.old reader.new result }
{
    let mut outs = [0; 16];
    for out in outs[..head.outputs as usize].iter_mut() {
        *out = wiring_lines::read_out(reader, head.count)?;
    }
    Ok(outs)
}

// The lines of a sheet, from the first to the last that is due.
fn read_wiring(reader: &mut Reader) -> Result<Wiring, WiringFault>
    ensures { WiringAnswer reader.old reader.new result }
{
    let head = row_lines::read_head(reader)?;
    let rows = read_rows(reader, head)?;
    let outs = read_outs(reader, head)?;
    Ok(Wiring::new(head, rows, outs))
}

// The wiring that the sheet writes, or what is wrong with it.
pub fn load_sheet(sheet: &[u8]) -> Result<Wiring, WiringFault>
    ensures verdict { MatchResult result (λ w. sheet.now ≡ text w) (λ f. Refused sheet.now f) }
    ensures exact { (w : Wiring) → sheet.now ≡ text w → result ≡ Ok w }
{
    let mut reader = Reader::new(sheet).map_err(RowFault::from)?;
    let wiring = read_wiring(&mut reader)?;
    text_lines::check_end(&reader).map_err(RowFault::from)?;
    Ok(wiring)
}
