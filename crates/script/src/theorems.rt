// What holds of every line.
ghost use Rattle.script.specs.Theorems.{OneReading};

// A line says at most one thing.
pub fn one_reading()
    ensures { OneReading }
{}
