// The due lines with what a row's settings and the times have to keep.
ghost use Rattle.sheet.specs.Sheet.{time_due, flag_due};
ghost use Rattle.sheet.specs.Steps.{RowStep};
ghost use Rattle.sheet.specs.Tables.{HeadAnswer};

use crate::fault::RowFault;
use crate::head::Head;
use crate::limits::{is_flag_allowed, is_from};
use crate::reader::Reader;
use crate::text_lines;
use block::{Kind, Times};

// The lines before the rows.
pub fn read_head(reader: &mut Reader) -> Result<Head, RowFault>
    ensures { HeadAnswer reader.old reader.new result }
{
    let count = text_lines::read_count(reader, b"rows=", 32)?;
    let outputs = text_lines::read_count(reader, b"outs=", 16)?;
    let min = read_time(reader, b"min=", 100)?;
    let max = read_time(reader, b"max=", min)?;
    let times = Times::new(min, max).unwrap();
    Ok(Head {
        count,
        outputs,
        times,
    })
}

// A time of at least `low` milliseconds. A guard, here and below: of `then_some(..).ok_or(..)` in its place the check found no proof.
fn read_time(reader: &mut Reader, key: &[u8], low: u16) -> Result<u16, RowFault>
    ensures { RowStep (time_due key.now low) reader.old reader.new result }
{
    let time = text_lines::read_time(reader, key)?;
    if !is_from(time, low) {
        return Err(RowFault::BadTimes(reader.line()));
    }
    Ok(time)
}

// A setting that the kind allows.
pub fn read_flag(reader: &mut Reader, key: &[u8], kind: Kind) -> Result<bool, RowFault>
    ensures { RowStep (flag_due key.now kind) reader.old reader.new result }
{
    let flag = text_lines::read_flag(reader, key)?;
    if !is_flag_allowed(kind, flag) {
        return Err(RowFault::NotAllowed(reader.line()));
    }
    Ok(flag)
}
