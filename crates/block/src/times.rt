// The two times of a sheet, within its limits in every value.
// A file of specs/ that names the record imports this one, so none is imported here.
ghost use Rattle.std.specs.Prelude.{◌≡◌, true};
ghost use Rattle.block.specs.Limits.{times_allowed};

pub mod ops;

// The shortest and the longest press of a reset button, in milliseconds.
#[derive(Clone, Copy, PartialEq, Eq)]
pub struct Times {
    min: u16,
    max: u16,
    ghost allowed: { times_allowed min max ≡ true },
}
