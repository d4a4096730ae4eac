// Reading a number.
ghost use Rattle.script.specs.Found.{FoundValue};
ghost use Rattle.script.specs.Numbers.{NumberWritten};

// The number that one or more digits write; none where it is over the limit.
pub(crate) fn parse_number(s: &[u8], limit: u32) -> Option<u32>
    ensures { FoundValue (NumberWritten limit s.now) result }
{
    if s.is_empty() {
        return None;
    }
    // A loop, whose invariant says what the digits so far write; a closure of `try_fold` would have to say it.
    let mut n = 0u64;
    for c in s {
        let digit = char::from(*c).to_digit(10)?;
        n = 10 * n + u64::from(digit);
        if n > u64::from(limit) {
            return None;
        }
    }
    Some(n as u32)
}

// The same where the limit is a byte, so that the cast loses nothing.
pub(crate) fn parse_byte(s: &[u8], limit: u8) -> Option<u8>
    ensures { FoundValue (NumberWritten limit s.now) result }
{
    parse_number(s, u32::from(limit)).map(|n| n as u8)
}
