// Text as lines and words, and the numbers and names that words stand for.
#![tactic(auto)]

mod meaning;
mod scan;

pub use meaning::{name_in, number_in, signed_in};
pub use scan::{end_of_run, line_span, next_word, nth_line, nth_span, nth_word, uncommented};

// The bytes between words; those of a word; those of a line, before its newline; and those of a line before its comment.
#[derive(Clone, Copy)]
pub enum Class {
    Gap,
    Word,
    Line,
    Shown,
}

// From where to where a word stands; at an end where there is none, both are that end.
#[derive(Clone, Copy)]
pub struct Span {
    pub from: usize,
    pub to: usize,
}
