// Reading a line.
ghost use Rattle.std.specs.Prelude.{Decides};
ghost use Rattle.script.specs.declared.keywords.Keyword.TheVariants.{Load, Scan, Halt, Report, Needs};
ghost use Rattle.script.specs.Found.{Found};
ghost use Rattle.script.specs.Readings.{load, reading, command_reading};
ghost use Rattle.script.specs.Says.{Means, PassedOver, Says};
ghost use Rattle.script.specs.Words.{arguments};

use crate::command::{Command, Line};
use crate::image::parse::parse_image;
use crate::keywords::{Keyword, parse_keyword};
use crate::numbers::{parse_byte, parse_number};
use crate::paths::is_path;
use crate::words::{Arguments, cut_words};

// The most blocks that a script lends.
const BLOCKS_LIMIT: u8 = 40;

// The most output bytes that a script lends.
const BYTES_LIMIT: u8 = 4;

// The most bytes of a report's place.
const SIZE_LIMIT: u8 = 64;

// The bytes of a report's place where a line does not say.
const SIZE_UNSAID: u8 = 54;

fn is_passed_over(line: &[u8]) -> bool
    ensures { Decides result (PassedOver line.now) }
{
    matches!(line, [] | [b'#', ..])
}

fn read_path(given: Arguments<'_>) -> Option<&[u8]>
    ensures { Found (λ p. load p.now) (Means Load (arguments given.entry)) result }
{
    given.one().filter(|path| is_path(path))
}

fn read_scan(given: Arguments<'_>) -> Option<Command>
    ensures { Found command_reading (Means Scan (arguments given.entry)) result }
{
    let Arguments::Two(image, elapsed) = given else {
        return None;
    };
    let image = parse_image(image)?;
    let elapsed = parse_number(elapsed, u32::MAX)?;
    Some(Command::Scan { image, elapsed })
}

fn read_halt(given: Arguments<'_>) -> Option<Command>
    ensures { Found command_reading (Means Halt (arguments given.entry)) result }
{
    matches!(given, Arguments::Zero).then_some(Command::Halt)
}

fn read_report(given: Arguments<'_>) -> Option<Command>
    ensures { Found command_reading (Means Report (arguments given.entry)) result }
{
    let (row, size) = match given {
        Arguments::Zero => return None,
        Arguments::One(row) => (row, SIZE_UNSAID),
        Arguments::Two(row, size) => (row, parse_byte(size, SIZE_LIMIT)?),
    };
    let row = parse_number(row, u32::MAX)?;
    Some(Command::Report { row, size })
}

fn read_needs(given: Arguments<'_>) -> Option<Command>
    ensures { Found command_reading (Means Needs (arguments given.entry)) result }
{
    let output = parse_number(given.one()?, u32::MAX)?;
    Some(Command::Needs { output })
}

fn read_command(keyword: Keyword, given: Arguments<'_>) -> Option<Line<'_>>
    ensures { Found reading (Means keyword (arguments given.entry)) result }
{
    Some(match keyword {
        Keyword::Load => Line::Load(read_path(given)?),
        Keyword::Scan => Line::Command(read_scan(given)?),
        Keyword::Halt => Line::Command(read_halt(given)?),
        Keyword::Report => Line::Command(read_report(given)?),
        Keyword::Needs => Line::Command(read_needs(given)?),
        Keyword::Blocks => Line::Blocks(parse_byte(given.one()?, BLOCKS_LIMIT)?),
        Keyword::Bytes => Line::Bytes(parse_byte(given.one()?, BYTES_LIMIT)?),
    })
}

// What a line says; none where it is no command.
pub fn read_line(line: &[u8]) -> Option<Line<'_>>
    ensures { Found reading (Says line.now) result }
{
    if is_passed_over(line) {
        return Some(Line::Nothing);
    }
    let (first, given) = cut_words(line)?;
    let keyword = parse_keyword(first)?;
    read_command(keyword, given)
}
