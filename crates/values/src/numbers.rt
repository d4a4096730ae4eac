// Numbers: two digits, or a time of one to five digits.
ghost use Rattle.std.specs.Prelude.{◌≤◌, [], ◌∷◌, decimal, Decides};
ghost use Rattle.values.specs.Parsed.{Parsed};
ghost use Rattle.values.specs.Written.{digit, two, OneDigit, TwoDigits, FiveDigits};

// Not `char::to_digit`, whose u32 would have to be cast to the u8 that a pair of digits gives.
fn parse_digit(b: u8) -> Option<u8>
    ensures { Parsed OneDigit digit b result }
{
    match b {
        b'0'..=b'9' => Some(b - b'0'),
        _ => None,
    }
}

// The number that two digit bytes write.
pub(crate) fn parse_pair(tens: u8, ones: u8) -> Option<u8>
    ensures { Parsed TwoDigits two (tens ∷ ones ∷ []) result }
{
    Some(parse_digit(tens)? * 10 + parse_digit(ones)?)
}

pub fn parse_two(s: &[u8]) -> Option<u8>
    ensures { Parsed TwoDigits two s.now result }
{
    let [a, b] = s else {
        return None;
    };
    parse_pair(*a, *b)
}

// One to five digits, with no zero before another digit.
pub fn parse_time(s: &[u8]) -> Option<u32>
    ensures { Parsed FiveDigits decimal s.now result }
{
    if !(1..=5).contains(&s.len()) || matches!(s, [b'0', _, ..]) {
        return None;
    }
    // A loop, whose invariant bounds the sum; a closure of `try_fold` would have to test for overflow.
    let mut n = 0;
    for b in s {
        n = 10 * n + u32::from(parse_digit(*b)?);
    }
    Some(n)
}
