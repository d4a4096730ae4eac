// Sources: `0`, `1`, `iNN` or `rNN`; four of them with commas; a reset's terminal.
ghost use Rattle.values.specs.Parsed.{Parsed};
ghost use Rattle.values.specs.Written.{source_text, row_text, pins_text, reset_text, TwoDigits, Short, FourShort, ShortReset};

use crate::cut::cut_once;
use crate::numbers::parse_pair;
use crate::source::Source;

// A rule takes sources apart by slice patterns, so the letter stands in each reader's own; the two digits after it are shared.
pub fn parse_source(s: &[u8]) -> Option<Source>
    ensures { Parsed Short source_text s.now result }
{
    match s {
        [b'0'] => Some(Source::Zero),
        [b'1'] => Some(Source::One),
        [b'i', a, b] => parse_pair(*a, *b).map(Source::Terminal),
        [b'r', a, b] => parse_pair(*a, *b).map(Source::Row),
        _ => None,
    }
}

pub fn parse_pins(s: &[u8]) -> Option<[Source; 4]>
    ensures { Parsed FourShort pins_text s.now result }
{
    let (a, rest) = cut_once(s, b',')?;
    let (b, rest) = cut_once(rest, b',')?;
    let (c, d) = cut_once(rest, b',')?;
    Some([
        parse_source(a)?,
        parse_source(b)?,
        parse_source(c)?,
        parse_source(d)?,
    ])
}

// `rNN`.
pub fn parse_row(s: &[u8]) -> Option<u8>
    ensures { Parsed TwoDigits row_text s.now result }
{
    match s {
        [b'r', a, b] => parse_pair(*a, *b),
        _ => None,
    }
}

// A terminal, or `-` for none.
pub fn parse_reset(s: &[u8]) -> Option<Option<u8>>
    ensures { Parsed ShortReset reset_text s.now result }
{
    match s {
        [b'-'] => Some(None),
        [b'i', a, b] => parse_pair(*a, *b).map(Some),
        _ => None,
    }
}
