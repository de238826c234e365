// The pieces of the lines that are written: bytes, bits and words, each into a lent buffer.
// Buffer and place stay two parameters: of a struct that holds the `&mut [u8]` the methods prove, by value and by `&mut self`, with a clause that
// keeps the ghost name, but the function that makes it learns of the buffer afterwards the length alone.
#![tactic(auto)]

pub mod bits;
pub mod copies;
pub mod words;
