// Numbers in bytes. Schedule files, traces and share sheets have their numbers in four bytes each, the least significant first. `word_at` reads
// one from a place of some bytes, and `put_word` puts one there. `put_bytes` and `put_words` put a whole array of bytes, or of numbers.
//
// None asks anything of its caller: where the bytes do not all lie within those that are handed in, the number is 0, and
// nothing is put.
#![tactic(auto)]

mod arrays;
mod word;

pub use arrays::{put_bytes, put_words};
pub use word::{put_word, word_at};
