// The three stations: what their tables hold.
#![tactic(auto)]

use button::Button;
use catalogue::Catalogue;
use group::Group;

// Catalogue blocks.
pub type Bare = Catalogue;

// Buttons over catalogue blocks.
pub type Buttons = Button<Catalogue>;

// Buttons over groups of two blocks made from the same row.
pub type Panels = Button<Group<Catalogue, Catalogue>>;

#[cfg(test)]
mod tests;
