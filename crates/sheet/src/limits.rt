// The tests behind the rules of a sheet, one function each.
ghost use Rattle.std.specs.Prelude.{◌≡◌, ◌<◌, ◌≤◌, true, length, Decides, nat_lt};
ghost use Rattle.sheet.specs.Limits.{most_bytes, last_row, most_time};
ghost use Rattle.sheet.specs.Sheet.{known, flag_allowed, Counts, Within, WithinReset, Earlier};
ghost use Rattle.std.specs.List.{AllByRecursion};

use block::Kind;
use values::Source;

pub fn is_too_long(sheet: &[u8]) -> bool
    ensures { result ≡ nat_lt most_bytes (length sheet.now) }
{
    sheet.len() > 4096
}

pub fn is_count(n: u8, most: u8) -> bool
    ensures { Decides result (Counts most n) }
{
    (1..=most).contains(&n)
}

pub fn is_time(n: u32) -> bool
    ensures { Decides result (n ≤ most_time) }
{
    n <= 60000
}

pub fn is_from(n: u16, low: u16) -> bool
    ensures { Decides result (low ≤ n) }
{
    low <= n
}

// Whether a station takes the kind.
pub fn is_known(kind: Kind) -> bool
    ensures { result ≡ known kind }
{
    match kind {
        Kind::And | Kind::Or | Kind::Estop => true,
    }
}

pub fn is_flag_allowed(kind: Kind, flag: bool) -> bool
    ensures { result ≡ flag_allowed kind flag }
{
    kind.has_restart() || !flag
}

pub fn is_within(source: Source) -> bool
    ensures { Decides result (Within source) }
{
    match source {
        Source::Terminal(n) => n <= 63,
        Source::Row(n) => n <= 31,
        _ => true,
    }
}

pub fn are_within(pins: &[Source]) -> bool
    ensures { Decides result (AllByRecursion Within pins.now) }
{
    pins.iter().all(|pin| is_within(*pin))
}

pub fn is_reset_within(reset: Option<u8>) -> bool
    ensures { Decides result (WithinReset reset) }
{
    reset.is_none_or(|n| n <= 63)
}

pub fn is_row(n: u8) -> bool
    ensures { Decides result (n ≤ last_row) }
{
    n <= 31
}

// Whether a source of row `row` is an earlier row, if it is a row.
pub fn is_earlier(source: Source, row: u8) -> bool
    ensures { Decides result (Earlier row source) }
{
    match source {
        Source::Row(n) => n < row,
        _ => true,
    }
}

pub fn are_earlier(pins: &[Source], row: u8) -> bool
    ensures { Decides result (AllByRecursion (Earlier row) pins.now) }
{
    pins.iter().all(|pin| is_earlier(*pin, row))
}

pub fn is_on_sheet(row: u8, count: u8) -> bool
    ensures { Decides result (row < count) }
{
    row < count
}
