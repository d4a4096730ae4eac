// What a block under a button is by its inner block, said of the layer's own ghost members.
ghost use Rattle.block.specs.Of.{meaning};
ghost use Rattle.reset.specs.declared.fields.ButtonFields.{ButtonFields};
ghost use Rattle.button.specs.Inner.{Buttons};
ghost use Rattle.button.specs.Relations.{button_relations};

use crate::Button;
use block::{Block, Rising};

// A block that is in every respect a rising block under a reset button.
pub trait HasInner<B: Rising>: Block {
    ghost inner: { Self → B };

    ghost fields: { Self → ButtonFields };

    ghost buttons: { Buttons inner fields (meaning B.Block) (meaning Self.Block) };
}

impl<B: Rising> HasInner<B> for Button<B> {
    ghost inner = { λ b. b.inner };

    ghost fields = { λ b. b.button };

    ghost buttons = { button_relations (meaning B.Block.own) B.laws };
}

// The mode, clear words, latched flag and releases of the layer are those of its inner block and button, by these relations.
pub fn button_is_its_inner<B: Rising, L: HasInner<B>>()
    ensures { Buttons L.HasInner.inner L.HasInner.fields (meaning B.Block) (meaning L.Block) }
{}
