// Where runs of bytes and words begin and end.
ghost use Rattle.std.specs.Prelude.{◌≡◌, ◌≤◌, length};
ghost use Rattle.words.specs.Words.{belongs, uncommented, RunEnd, Next, nth_span, nth_word, line_span, nth_line};

use crate::{Class, Span};

#[tactic(auto, unfolding(crate::specs::Words::belongs))]
fn is_gap(b: u8) -> bool
    ensures { result ≡ belongs Class.Gap b }
{
    matches!(b, b' ' | b'\t' | b'\r')
}

#[tactic(auto, unfolding(crate::specs::Words::belongs))]
fn belongs(class: Class, b: u8) -> bool
    ensures { result ≡ belongs class b }
{
    match class {
        Class::Gap => is_gap(b),
        Class::Word => !is_gap(b),
        Class::Line => b != b'\n',
        Class::Shown => b != b'#',
    }
}

// The place after the bytes of a class that stand from a place on.
pub fn end_of_run(s: &[u8], at: usize, class: Class) -> usize
    ensures { RunEnd class s.now at result }
{
    for i in at..s.len() {
        if !belongs(class, s[i]) {
            return i;
        }
    }
    s.len().max(at)
}

// The first word from a place on.
pub fn next_word(s: &[u8], at: usize) -> Span
    ensures { Next s.now at result }
{
    let from = end_of_run(s, at, Class::Gap);
    let to = end_of_run(s, from, Class::Word);
    Span { from, to }
}

// Where the word after the first k stands.
pub fn nth_span(s: &[u8], k: usize) -> Span
    ensures { (result ≡ nth_span s.now k) × (result.from ≤ result.to) × (result.to ≤ length s.now) }
{
    let mut at: usize = 0;
    for _i in 0..k {
        let word = next_word(s, at);
        at = word.to;
    }
    next_word(s, at)
}

// The word after the first k; none where there is none.
pub fn nth_word(s: &[u8], k: usize) -> &[u8]
    ensures { result.now ≡ nth_word s.now k }
{
    let span = nth_span(s, k);
    &s[span.from..span.to]
}

// From where to where line k stands, k from 0 on; where there is none, at the end.
pub fn line_span(s: &[u8], k: usize) -> Span
    ensures { (result ≡ line_span s.now k) × (result.from ≤ result.to) × (result.to ≤ length s.now) }
{
    let end = s.len();
    let mut at: usize = 0;
    for _i in 0..k {
        if end < at {
            return Span { from: end, to: end };
        }
        at = end_of_run(s, at, Class::Line) + 1;
    }
    if end < at {
        return Span { from: end, to: end };
    }
    let to = end_of_run(s, at, Class::Line);
    Span { from: at, to }
}

// Line k, k from 0 on; an empty one where there is none.
pub fn nth_line(s: &[u8], k: usize) -> &[u8]
    ensures { result.now ≡ nth_line s.now k }
{
    let span = line_span(s, k);
    &s[span.from..span.to]
}

// A line without its comment.
pub fn uncommented(l: &[u8]) -> &[u8]
    ensures { result.now ≡ uncommented l.now }
{
    let end = end_of_run(l, 0, Class::Shown);
    &l[..end]
}
