// Cutting bytes at a separator.
ghost use Rattle.std.specs.Option.{MatchOption};
ghost use Rattle.values.specs.Cut.{CutOnce, Uncut};

// What stands before the first byte `sep`, and after it; none where no byte is `sep`.
pub fn cut_once(s: &[u8], sep: u8) -> Option<(&[u8], &[u8])>
    ensures { MatchOption result (Uncut sep s.now) (λ p. CutOnce sep s.now p.0.now p.1.now) }
{
    let i = s.iter().position(|b| *b == sep)?;
    Some((&s[..i], &s[i + 1..]))
}
