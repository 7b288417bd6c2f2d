//! Reads lines of fields, which are words, names and numbers. Also has lists of numbers by place, labels, and text that
//! is written word by word.
#![tactic(auto)]

mod compare;
mod cursor;
mod cut;
mod fields;
mod frame;
mod judge;
mod labels;
mod lines;
mod measure;
mod name;
mod number;
mod number_row;
mod numbers;
mod plain;
mod words;
mod writing;

pub use fields::Fields;
pub use frame::{end, header};
pub use judge::{both, finish, finish_both, need};
pub use labels::{Labels, suffix};
pub use lines::Lines;
pub use name::{are_name_bytes, is_name};
pub use number::CAP;
pub use number_row::NumberRow;
pub use numbers::{
    NONE, at, is_set, lower, parts, parts_of, place_of, put, quotient, raise, row, set, set_word,
    small, swap, word,
};
pub use plain::{after_word, plain_number, plain_numbers, plain_word};
pub use words::Words;
pub use writing::push_numbers;
