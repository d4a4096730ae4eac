// A sheet row's block settings, within the sheet's limits in every value.
// A file of specs/ that names the record imports this one, so none is imported here.
ghost use Rattle.std.specs.Prelude.{◌≡◌, true};
ghost use Rattle.block.specs.Limits.{settings_allowed};

use crate::types::Kind;

pub mod ops;

// The kind, and whether it comes on by itself at the start and after a stop.
#[derive(Clone, Copy, PartialEq, Eq)]
pub struct Settings {
    kind: Kind,
    start: bool,
    auto: bool,
    ghost allowed: { settings_allowed kind start auto ≡ true },
}
