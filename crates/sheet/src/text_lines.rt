// The due lines as text: each is absent or malformed, has a number outside its limit, or is read.
ghost use Rattle.std.specs.Fn.{FnOnceReturnsAt};
ghost use Rattle.sheet.specs.Reading.{at};
ghost use Rattle.sheet.specs.Sheet.{known, count_due, time_text_due, kind_due, act_text_due, pins_text_due, reset_due, flag_text_due, out_text_due};
ghost use Rattle.sheet.specs.Steps.{ReadBy, TextStep, EndChecked};

use crate::fault::TextFault;
use crate::limits::{are_within, is_count, is_known, is_reset_within, is_row, is_time, is_within};
use crate::reader::Reader;
use block::Kind;
use values::{
    Source, parse_flag, parse_kind, parse_pins, parse_reset, parse_row, parse_source, parse_time,
    parse_two,
};

// The value of the due line, as `parse` reads it, if `is_within` finds it within its limits.
fn read<T: Drop, P: FnOnce(&[u8]) -> Option<T>, W: FnOnce(&T) -> bool>(
    reader: &mut Reader,
    key: &[u8],
    parse: P,
    is_within: W,
) -> Result<T, TextFault>
    requires parses { P.IsAlwaysCallable parse }
    requires tests { W.IsAlwaysCallable is_within }
    ensures { ReadBy (FnOnceReturnsAt P.FnOnce parse) (FnOnceReturnsAt W.FnOnce is_within) key.now (at reader.old) (at reader.new) result }
{
    let part = reader.value(key)?;
    let value = parse(part.bytes).ok_or(TextFault::Malformed(part.line))?;
    if is_within(&value) {
        Ok(value)
    } else {
        Err(TextFault::Limit(part.line))
    }
}

// `rows=` or `outs=`, from 01 to `most`.
pub fn read_count(reader: &mut Reader, key: &[u8], most: u8) -> Result<u8, TextFault>
    ensures { TextStep (count_due key.now most) reader.old reader.new result }
{
    read(reader, key, parse_two, |n| is_count(*n, most))
}

// `min=` or `max=`, in milliseconds.
pub fn read_time(reader: &mut Reader, key: &[u8]) -> Result<u16, TextFault>
    ensures { TextStep (time_text_due key.now) reader.old reader.new result }
{
    let time = read(reader, key, parse_time, |n| is_time(*n))?;
    Ok(time as u16)
}

// Kinds and settings have no limit, so these two readers take the value alone.
pub fn read_kind(reader: &mut Reader) -> Result<Kind, TextFault>
    ensures { TextStep (kind_due known) reader.old reader.new result }
{
    let part = reader.value(b"kind=")?;
    parse_kind(part.bytes)
        .filter(|kind| is_known(*kind))
        .ok_or(TextFault::Malformed(part.line))
}

pub fn read_act(reader: &mut Reader) -> Result<Source, TextFault>
    ensures { TextStep act_text_due reader.old reader.new result }
{
    read(reader, b"act=", parse_source, |act| is_within(*act))
}

pub fn read_pins(reader: &mut Reader) -> Result<[Source; 4], TextFault>
    ensures { TextStep pins_text_due reader.old reader.new result }
{
    read(reader, b"pins=", parse_pins, |pins| are_within(pins))
}

pub fn read_reset(reader: &mut Reader) -> Result<Option<u8>, TextFault>
    ensures { TextStep reset_due reader.old reader.new result }
{
    read(reader, b"reset=", parse_reset, |r| is_reset_within(*r))
}

// `start=` or `auto=`.
pub fn read_flag(reader: &mut Reader, key: &[u8]) -> Result<bool, TextFault>
    ensures { TextStep (flag_text_due key.now) reader.old reader.new result }
{
    let part = reader.value(key)?;
    parse_flag(part.bytes).ok_or(TextFault::Malformed(part.line))
}

pub fn read_out(reader: &mut Reader) -> Result<u8, TextFault>
    ensures { TextStep out_text_due reader.old reader.new result }
{
    read(reader, b"out=", parse_row, |row| is_row(*row))
}

// Nothing follows the last line.
pub fn check_end(reader: &Reader) -> Result<(), TextFault>
    ensures { EndChecked reader.now result }
{
    if !reader.is_done() {
        return Err(TextFault::Trailing(reader.due_line()));
    }
    Ok(())
}
