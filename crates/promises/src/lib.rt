// The promises over every history, together: of outputs, of latched rows, and of stacks of layers.
#![tactic(auto)]

ghost use Rattle.block.specs.Laws.{Laws};
ghost use Rattle.block.specs.Meaning.{Meaning};
ghost use Rattle.sheet.specs.declared.wiring.Wiring.{Wiring};
ghost use Rattle.stacks.specs.Stacks.{Stack, Stands};
ghost use Rattle.station.specs.Promises.{PromisesKept};

// For every meaning that keeps the interface's laws, and every stack of layers over rising leaves.
pub fn promises_hold<X>()
    ensures histories { (m : Meaning X) → Laws m → (w : Wiring) → PromisesKept m w }
    ensures stacks { (s : Stack X) → Stands s }
{}
