//! Texts as bytes: lines, words, blanks and numbers; what a reader answers, and which fault of a text is told first.
#![tactic(auto)]

mod line;
mod number;
mod scan;
mod tight;
mod word;

pub use line::next_line;
pub use number::{push_number, push_whole};
pub use scan::{behind, next_number, number_at, value_of_digits};
pub use tight::{ShortLine, is_blank, tight_line, tighten};
pub use word::{is_call_word, is_digit, is_name, is_name_byte, is_pair_word, is_type_word};
