// The reset button's record, whose limits hold in every value.
// A file of specs/ that names the record imports this one, so none is imported here.
ghost use Rattle.std.specs.Prelude.{◌≡◌, true};
ghost use Rattle.reset.specs.Limits.{button_allowed};

use crate::fields::ButtonFields;

pub mod ops;

// Plain fields of which the times are those of a sheet, and the running time is at most max.
#[derive(Clone, Copy)]
pub struct ResetButton {
    fields: ButtonFields,
    ghost allowed: { button_allowed fields.min fields.max fields.time ≡ true },
}
