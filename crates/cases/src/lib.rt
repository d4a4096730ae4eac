// The cases at the limits, shown of the definitions themselves.
#![tactic(auto)]

ghost use Rattle.cases.specs.Cases.{AllHold, table};

// Each trial of the table has the outcome that stands beside it.
pub fn cases_hold()
    ensures { AllHold table }
{}
