//! The arguments of a program, and its answers about itself.
#![tactic(auto)]

mod about;
mod line;

pub use about::{Question, question_in, tell_about};
pub use line::{one_word, read_words};
