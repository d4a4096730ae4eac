// The lines of a script, one after another.
ghost use Rattle.std.specs.Prelude.{◌≡◌, [], length, MatchOption};
ghost use Rattle.std.specs.Iterator.{at_most};
ghost use Rattle.script.specs.Lines.{NextLine};

use values::cut_once;

// The first line of a script and what follows its LF; none where nothing is left.
pub fn next_line(script: &[u8]) -> Option<(&[u8], &[u8])>
    ensures { MatchOption result (script.now ≡ []) (λ p. NextLine script.now p.0.now p.1.now) }
{
    if script.is_empty() {
        return None;
    }
    Some(cut_once(script, b'\n').unwrap_or((script, &[])))
}

// A script, or what is left of one, line by line.
#[derive(Drop)]
pub struct Script<'a>(pub &'a [u8]);

impl<'a> Iterator for Script<'a> {
    type Item = &'a [u8];

    ghost next_gives = { λ s r s'. MatchOption r ((s.0.now ≡ []) × (s' ≡ s)) (λ line. NextLine s.0.now line.now s'.0.now) };

    ghost remaining = { λ s. at_most (length s.0.now) };

    fn next(&mut self) -> Option<&'a [u8]> {
        let (line, rest) = next_line(self.0)?;
        self.0 = rest;
        Some(line)
    }
}
