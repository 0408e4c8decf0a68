// What a word stands for, if for anything.
ghost use Rattle.std.specs.Prelude.{◌≡◌, ◌^◌};
ghost use Rattle.words.specs.Numbers.{number_in, negated, signed_in, name_in};

use crate::scan::next_word;

// Digits, up to a highest number.
pub fn number_in(most: u32, w: &[u8]) -> Option<usize>
    ensures { result ≡ number_in most w.now }
{
    if w.is_empty() {
        return None;
    }
    let top = most as usize;
    let mut v: usize = 0;
    for b in w {
        if *b < b'0' {
            return None;
        }
        if b'9' < *b {
            return None;
        }
        v = v * 10 + usize::from(*b - b'0');
        if top < v {
            return None;
        }
    }
    Some(v)
}

// Digits after a sign: the two's complement of the number below zero.
fn below_zero(w: &[u8]) -> Option<usize>
    ensures { result ≡ negated (number_in (2 ^ 31) w.now) }
{
    let v = number_in(0x8000_0000, w)?;
    if v == 0 {
        return Some(0);
    }
    Some(0x1_0000_0000 - v)
}

// Digits, with a sign before them where the number is below zero.
pub fn signed_in(w: &[u8]) -> Option<usize>
    ensures { result ≡ signed_in w.now }
{
    if w.is_empty() {
        return None;
    }
    if w[0] == b'-' {
        return below_zero(&w[1..]);
    }
    number_in(0x7FFF_FFFF, w)
}

// The number of a word among names that stand in a text, which count from a first number on.
pub fn name_in(first: u8, names: &[u8], w: &[u8]) -> Option<usize>
    ensures { result ≡ name_in first names.now w.now }
{
    let mut at: usize = 0;
    let mut k = usize::from(first);
    // stays (no plainer): each turn goes on to the next word, which is no count of bytes
    while at < names.len() {
        let name = next_word(names, at);
        let from = name.from;
        let to = name.to;
        if from == to {
            return None;
        }
        if &names[from..to] == w {
            return Some(k);
        }
        at = to;
        k += 1;
    }
    None
}
