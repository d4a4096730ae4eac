// Making and reading the two times.
ghost use Rattle.std.specs.Prelude.{◌≡◌};
ghost use Rattle.block.specs.Made.{TimesMade};
ghost use Rattle.block.specs.Limits.{times_allowed};

use super::Times;

// The limits of a press, in milliseconds.
pub const SHORTEST_PRESS: u16 = 100;

pub const LONGEST_PRESS: u16 = 60000;

// Whether min is at most max, and both are within the limits of a press.
pub fn are_times_allowed(min: u16, max: u16) -> bool
    ensures { result ≡ times_allowed min max }
{
    SHORTEST_PRESS <= min && min <= max && max <= LONGEST_PRESS
}

impl Times {
    // The two times, or none where they break a limit.
    pub fn new(min: u16, max: u16) -> Option<Times>
        ensures { TimesMade min max result }
    {
        // Of `then` in place of the branches no proof closes: in its closure the test is not known to hold.
        if are_times_allowed(min, max) {
            Some(Times { min, max })
        } else {
            None
        }
    }

    pub fn min(self) -> u16
        ensures { result ≡ self.min }
    {
        self.min
    }

    pub fn max(self) -> u16
        ensures { result ≡ self.max }
    {
        self.max
    }
}
