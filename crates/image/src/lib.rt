// An image, working or persistent: word 0 the slots N, word 1 the words of contents W, word 2 the clock,
// then N headers, then N contents. Inside, functions take N and W as numbers that were checked once.
#![tactic(auto)]

pub mod bytes;
pub mod contents;
pub mod header;
pub mod line;
pub mod name;
pub mod shape;
pub mod words;
