// What holds of every kind of block, from the interface alone.
ghost use Rattle.block.specs.Laws.{Laws};
ghost use Rattle.block.specs.Of.{meaning};
ghost use Rattle.block.specs.Recovery.{LatchedRecovers};

use crate::Block;

// Every block keeps all the laws of the interface.
pub fn keeps_laws<B: Block>()
    ensures { Laws (meaning B.Block) }
{
    B::comes_on();
}

// A latched block can be brought on from idle: no latched block never waits or never comes on.
pub fn latched_recovers<B: Block>()
    ensures { LatchedRecovers (meaning B.Block) }
{
    keeps_laws::<B>();
}
