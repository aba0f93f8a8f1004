//! Tables of a journal's lines, good and bad, and of the lines that answer them.

mod answers;
mod lines;
