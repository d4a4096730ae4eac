// The lines of a bench script: what each says.
#![tactic(auto)]

pub mod command;
pub mod image;
pub mod keywords;
pub mod lines;
pub mod numbers;
pub mod paths;
pub mod read;
pub mod theorems;
pub mod words;

pub use command::{Command, Line};
pub use image::Image;
pub use lines::{Script, next_line};
pub use read::read_line;
pub use theorems::one_reading;

#[cfg(test)]
mod tests;
