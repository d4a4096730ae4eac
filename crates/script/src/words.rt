// The words of a line.
ghost use Rattle.std.specs.Prelude.{◌≡◌, ℕ, ◌≤◌, List, [], ◌∷◌, length, MatchOption};
ghost use Rattle.script.specs.Found.{Found};
ghost use Rattle.script.specs.Words.{Words, arguments};

use values::cut_once;

// The words after the keyword: two at most, so cases and no list, which would need memory.
#[derive(Clone, Copy)]
pub(crate) enum Arguments<'a> {
    Zero,
    One(&'a [u8]),
    Two(&'a [u8], &'a [u8]),
}

impl<'a> Arguments<'a> {
    // The word that stands there alone.
    pub(crate) fn one(self) -> Option<&'a [u8]>
        ensures { Found (λ w. w.now) (λ w. arguments self.entry ≡ w ∷ []) result }
    {
        match self {
            Arguments::One(word) => Some(word),
            _ => None,
        }
    }
}

// The first word of a line and those after it; none where these are over two.
pub(crate) fn cut_words(line: &[u8]) -> Option<(&[u8], Arguments<'_>)>
    ensures { MatchOption result ((w : List ℕ) (ws : List (List ℕ)) → Words line.now (w ∷ ws) → 3 ≤ length ws) (λ p. Words line.now (p.0.now ∷ arguments p.1)) }
{
    let Some((first, rest)) = cut_once(line, b' ') else {
        return Some((line, Arguments::Zero));
    };
    let Some((second, third)) = cut_once(rest, b' ') else {
        return Some((first, Arguments::One(rest)));
    };
    match cut_once(third, b' ') {
        None => Some((first, Arguments::Two(second, third))),
        Some(_) => None,
    }
}
