#![tactic(auto)]

// One line of text: key, `=`, value, newline.
mod bytes;
mod reader;
mod text;
mod token;

pub use reader::{line_width, read_line};
pub use text::{Read, Text};
pub use token::Line;
