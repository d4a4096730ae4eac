// What holds over every history, for every kind of block.
ghost use Rattle.block.specs.Of.{meaning};
ghost use Rattle.sheet.specs.declared.wiring.Wiring.{Wiring as Wires};
ghost use Rattle.station.specs.Histories.{Fixed};

use block::Block;

// A history alone fixes the block of each row: the rules have one solution.
pub fn histories_fix_blocks<B: Block>()
    ensures { (w : Wires) → Fixed (meaning B.Block) w }
{}
