// Making and reading a row's settings.
ghost use Rattle.std.specs.Prelude.{◌≡◌};
ghost use Rattle.block.specs.Limits.{has_restart, settings_allowed};
ghost use Rattle.block.specs.Made.{SettingsMade};

use super::Settings;
use crate::types::Kind;

impl Kind {
    // Whether the kind may have start or auto 1.
    pub fn has_restart(self) -> bool
        ensures { result ≡ has_restart self }
    {
        match self {
            Kind::And => false,
            Kind::Or => false,
            Kind::Estop => true,
        }
    }
}

// Whether a kind may have these settings.
pub fn are_settings_allowed(kind: Kind, start: bool, auto: bool) -> bool
    ensures { result ≡ settings_allowed kind start auto }
{
    kind.has_restart() || !(start || auto)
}

impl Settings {
    // The settings, or none where the kind does not allow them.
    pub fn new(kind: Kind, start: bool, auto: bool) -> Option<Settings>
        ensures { SettingsMade kind start auto result }
    {
        // Of `then` in place of the branches no proof closes: in its closure the test is not known to hold.
        if are_settings_allowed(kind, start, auto) {
            Some(Settings { kind, start, auto })
        } else {
            None
        }
    }

    pub fn kind(self) -> Kind
        ensures { result ≡ self.kind }
    {
        self.kind
    }

    pub fn start(self) -> bool
        ensures { result ≡ self.start }
    {
        self.start
    }

    pub fn auto(self) -> bool
        ensures { result ≡ self.auto }
    {
        self.auto
    }
}
