//! The words in lines of scripts: written and read one by one.
mod code;
mod header;
mod item;
mod kind;
mod number;
mod option;
mod spaced;
mod verb;

pub use code::{code_of_word, code_word};
pub use header::Header;
pub use item::{BYTE_BITS, BYTE_TYPE, WORD_BITS, descriptor, zeros};
pub use kind::{Kind, push_value};
pub use option::large_word;
pub use spaced::{column_of, count_words, push_spaced, take_word};
pub use verb::Verb;
