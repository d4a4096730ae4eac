// The two settings of an emergency stop.
ghost use Rattle.std.specs.Prelude.{◌≡◌};

// Not the row's `Settings`, which keep their limits: what lies in lent memory promises nothing.
// start: it comes on by itself after power-up. auto: it comes on by itself after a stop.
#[derive(Clone, Copy, PartialEq, Eq)]
pub struct StopSettings {
    start: bool,
    auto: bool,
}

impl StopSettings {
    pub fn new(start: bool, auto: bool) -> StopSettings
        ensures { result ≡ record { start = start; auto = auto } }
    {
        StopSettings { start, auto }
    }

    pub fn start(self) -> bool
        ensures { result ≡ self.start }
    {
        self.start
    }

    pub fn auto(self) -> bool
        ensures { result ≡ self.auto }
    {
        self.auto
    }
}
