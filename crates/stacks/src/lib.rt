// Stacks of layers: any rising block, or a group of two stacks, to any depth; one button may stand on top.
#![tactic(auto)]

ghost use Rattle.block.specs.Laws.{Laws};
ghost use Rattle.block.specs.Of.{meaning};
ghost use Rattle.block.specs.Rises.{Rises};
ghost use Rattle.button.specs.Button.{buttoned};
ghost use Rattle.button.specs.Inner.{Buttons};
ghost use Rattle.group.specs.Group.{grouped};
ghost use Rattle.group.specs.Members.{Groups};
ghost use Rattle.stacks.specs.Stacks.{Stack, Stands};

use block::theorems::keeps_laws;
use block::{Block, Rising};
use button::{Button, HasInner, button_is_its_inner};
use group::{Group, HasMembers, group_is_its_members};

// Every stack over leaves of one type, each with a meaning of its own, keeps the laws and has the meaning that its layers give.
// The other clauses say the same of types: a rising block, a group of two and a button over one, each by its own ghost members.
pub fn stacks_are_blocks<X, A: Rising, B: Rising, G: HasMembers<A, B>, L: HasInner<A>>()
    ensures stacks { (s : Stack X) → Stands s }
    ensures leaf_laws { Laws (meaning A.Block) }
    ensures leaf_rises { Rises (meaning A.Block) }
    ensures group_laws { Laws (meaning G.Block) }
    ensures group_rises { Rises (meaning G.Block) }
    ensures group { Groups G.HasMembers.first G.HasMembers.second (meaning A.Block) (meaning B.Block) (meaning G.Block) }
    ensures button_laws { Laws (meaning L.Block) }
    ensures button { Buttons L.HasInner.inner L.HasInner.fields (meaning A.Block) (meaning L.Block) }
{
    keeps_laws::<A>();
    A::rises();
    keeps_laws::<G>();
    G::rises();
    group_is_its_members::<A, B, G>();
    keeps_laws::<L>();
    button_is_its_inner::<A, L>();
}

// The library's own layers are those layers: what is said of every group and button is said of `Group` and `Button`.
pub fn layers_are_the_librarys<A: Rising, B: Rising>()
    ensures group_laws { Laws (grouped (meaning A.Block) (meaning B.Block)) }
    ensures group_rises { Rises (grouped (meaning A.Block) (meaning B.Block)) }
    ensures group { Groups (λ g. g.first) (λ g. g.second) (meaning A.Block) (meaning B.Block) (grouped (meaning A.Block) (meaning B.Block)) }
    ensures button_laws { Laws (buttoned (meaning A.Block)) }
    ensures button { Buttons (λ b. b.inner) (λ b. b.button) (meaning A.Block) (buttoned (meaning A.Block)) }
{
    stacks_are_blocks::<A, A, B, Group<A, B>, Button<A>>();
}
