// What a block is made from.
// A file of specs/ that names the record imports this one, so none is imported here.
use crate::settings::Settings;
use crate::times::Times;

pub mod ops;

// A row's settings and the sheet's times, handed on whole by every layer.
#[derive(Clone, Copy, PartialEq, Eq)]
pub struct Setup {
    pub settings: Settings,
    pub times: Times,
}
