// Making a setup.
ghost use Rattle.block.specs.Made.{SetupMade};

use super::Setup;
use crate::settings::Settings;
use crate::times::Times;
use crate::types::Kind;

impl Setup {
    // The setup, or none where the kind does not allow the settings or the times break a limit.
    pub fn new(kind: Kind, start: bool, auto: bool, min: u16, max: u16) -> Option<Setup>
        ensures { SetupMade kind start auto min max result }
    {
        let settings = Settings::new(kind, start, auto)?;
        let times = Times::new(min, max)?;
        Some(Setup { settings, times })
    }
}
