//! The words of a line: cut, and each read as a number, a key, a value or a span.
//!
//! `word_lines` reads and writes commands by it, and passes its modules on to `script`, `sessions`, `follow`, `jobs`
//! and `embedded`, which name its faults.
//!
//! A line is words with one space between two, and a newline. A number is decimal digits without a leading zero. Bytes
//! are spelled: a printable byte as itself, any other as `%` and two digits, no bytes as `-`. So each number and each
//! list of bytes has one word, and only that word is read.
//!
//! ```text
//! "7 a%20b - x\n"    text_of, words_of    7 | a%20b | - | x
//!                    take_number          7
//!                    take_key             the bytes "a b", and 2 words are left
//!                    take_key             keylength: `-` spells no bytes
//! "%41"              bytes_of             badbyte: 41 is `A`, and spelled so
//! ```
//!
//! What is wrong with a line is one of eleven faults, and a reader tells the first from the left. Where it finds no
//! memory it says that instead.
//!
//! Costs, where a text or a word has b bytes:
//!
//! - `text_of`: O(1); `words_of`: O(b), each byte once
//! - `take_number`, `take_key`, `take_value`, `take_span` and their like: the bytes of their words, twice
//! - `put_spelling`: O(b), each byte once; `bytes_of`: O(b), each byte once or twice
//!
//! A reader takes memory for keys, values and bounds alone, and only where their words have more than 24 bytes.
//! `put_spelling` pushes into the caller's buffer, and takes memory where that has to grow.
//!
//! Tests: `unit_tests`.
#![tactic(auto)]

pub mod arguments;
pub mod fault;
pub mod laws;
pub mod spelling;
pub mod words;
