// Where a bit of a row comes from.

// A constant, an input terminal, or whether an earlier row is on.
#[derive(Clone, Copy, PartialEq, Eq)]
pub enum Source {
    Zero,
    One,
    Terminal(u8),
    Row(u8),
}
