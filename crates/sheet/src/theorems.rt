// What holds of every sheet; the functions do nothing.
ghost use Rattle.sheet.specs.Loads.{OneVerdict, OneWiring, TextsAreShort};
ghost use Rattle.sheet.specs.Order.{RulesInOrder};

// No text has two faults, and no wiring's text has any.
pub fn one_verdict()
    ensures { OneVerdict }
{}

// Two wirings with one text are equal.
pub fn one_wiring()
    ensures { OneWiring }
{}

// No wiring's text is longer than a sheet may be.
pub fn texts_are_short()
    ensures { TextsAreShort }
{}

// In every due line the rules are asked in their order.
pub fn rules_in_order()
    ensures { RulesInOrder }
{}
