// What a group is by its two members, said of the group's own ghost members.
ghost use Rattle.block.specs.Of.{meaning};
ghost use Rattle.group.specs.Members.{Groups};
ghost use Rattle.std.proofs.Common.{rules};

use crate::Group;
use block::{Block, Rising};

// A block with two members that is in every respect the group of them.
pub trait HasMembers<A: Rising, B: Rising>: Rising {
    ghost first: { Self → A };

    ghost second: { Self → B };

    ghost groups: { Groups first second (meaning A.Block) (meaning B.Block) (meaning Self.Block) };
}

impl<A: Rising, B: Rising> HasMembers<A, B> for Group<A, B> {
    ghost first = { λ g. g.first };

    ghost second = { λ g. g.second };

    ghost groups = { Prim.search rules };
}

// The mode, clear words, latched flag and releases of a group are those of its members, by these relations.
pub fn group_is_its_members<A: Rising, B: Rising, G: HasMembers<A, B>>()
    ensures { Groups G.HasMembers.first G.HasMembers.second (meaning A.Block) (meaning B.Block) (meaning G.Block) }
{}
