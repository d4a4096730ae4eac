// Examples that a person can check by hand, over the types that stations hold.
#![tactic(auto)]

pub use stations::{Buttons, Panels};

#[cfg(test)]
mod tests;
