// The reset button: its plain fields, its record with an invariant, and its step.
#![tactic(auto)]

pub mod button;
pub mod fields;

pub use button::ResetButton;
pub use fields::{ButtonFields, ButtonState, ResetInput};
