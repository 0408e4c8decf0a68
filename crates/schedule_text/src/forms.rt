// The table of forms.
ghost use Rattle.std.specs.Prelude.{◌≡◌, ◌++◌, ◌≤◌};
ghost use Rattle.text.specs.Text.{ascii};
ghost use Rattle.text.specs.Writers.{Wrote};
ghost use Rattle.words.specs.Words.{nth_word};
ghost use Rattle.schedule_text.specs.Forms.{row, delivery, row_of, slot_in, field_of, with_field, room, value_in, shown, spaced, rest_of, line_of};

use crate::{Row, Slot};
use event_record::Fields;
use text::Writer;
use words::{name_in, nth_word, number_in, signed_in};

// The documents' words, in the sequence of their numbers.
const VERBS: &[u8] = b"lock order vote deliver bell arbiter stop save restore back ballot";

const TELEGRAMS: &[u8] = b"vote acknowledgement help-call help-answer ask promise put taken";

const WILLINGS: &[u8] = b"unwilling willing";

const DECISIONS: &[u8] = b"stay move";

const OWN: &[u8] = b"own-arbiter";

fn row(first: Slot, second: Slot, third: Slot, fourth: Slot) -> Row
    ensures { result ≡ row first second third fourth }
{
    Row {
        first,
        second,
        third,
        fourth,
    }
}

fn delivery(c: u8) -> Row
    ensures { result ≡ delivery c }
{
    if c <= 4 {
        return row(Slot::Telegram, Slot::A, Slot::B, Slot::End);
    }
    row(Slot::Telegram, Slot::Number, Slot::A, Slot::B)
}

#[tactic(auto, unfolding(crate::specs::Forms::row_of))]
pub(crate) fn row_of(kind: u8, c: u8) -> Row
    ensures { result ≡ row_of kind c }
{
    match kind {
        0 => row(Slot::A, Slot::B, Slot::Own, Slot::End),
        1 => row(Slot::Number, Slot::End, Slot::End, Slot::End),
        2 => row(Slot::A, Slot::Willing, Slot::Target, Slot::End),
        3 => delivery(c),
        4 => row(Slot::A, Slot::End, Slot::End, Slot::End),
        5 => row(Slot::A, Slot::Word, Slot::End, Slot::End),
        6 => row(Slot::A, Slot::End, Slot::End, Slot::End),
        7 => row(Slot::A, Slot::End, Slot::End, Slot::End),
        8 => row(Slot::A, Slot::End, Slot::End, Slot::End),
        9 => row(Slot::End, Slot::End, Slot::End, Slot::End),
        10 => row(Slot::A, Slot::Number, Slot::End, Slot::End),
        _ => row(Slot::End, Slot::End, Slot::End, Slot::End),
    }
}

#[tactic(auto, unfolding(crate::specs::Forms::slot_in))]
pub(crate) fn slot_in(row: Row, i: usize) -> Slot
    ensures { result ≡ slot_in row i }
{
    match i {
        0 => Slot::Verb,
        1 => row.first,
        2 => row.second,
        3 => row.third,
        4 => row.fourth,
        _ => Slot::End,
    }
}

// The field that a place shows.
#[tactic(auto, unfolding(crate::specs::Forms::field_of))]
fn field_of(slot: Slot, x: Fields) -> u32
    ensures { result ≡ field_of slot x }
{
    match slot {
        Slot::Verb => u32::from(x.kind),
        Slot::A => u32::from(x.a),
        Slot::B | Slot::Willing | Slot::Word => u32::from(x.b),
        Slot::Telegram | Slot::Own => u32::from(x.c),
        Slot::Number | Slot::Target => x.value,
        Slot::End => 0,
    }
}

#[tactic(auto, unfolding(crate::specs::Forms::room, crate::specs::Forms::with_field))]
pub(crate) fn with_field(slot: Slot, v: usize, x: Fields) -> Fields
    requires { v ≤ room slot }
    ensures { result ≡ with_field slot v x }
{
    match slot {
        Slot::Verb => Fields { kind: v as u8, ..x },
        Slot::A => Fields { a: v as u8, ..x },
        Slot::B | Slot::Willing | Slot::Word => Fields { b: v as u8, ..x },
        Slot::Telegram | Slot::Own => Fields { c: v as u8, ..x },
        Slot::Number | Slot::Target => Fields {
            value: v as u32,
            ..x
        },
        Slot::End => x,
    }
}

// What a word stands for at a place.
#[tactic(auto, unfolding(crate::specs::Forms::value_in))]
pub(crate) fn value_in(slot: Slot, w: &[u8]) -> Option<usize>
    ensures { result ≡ value_in slot w.now }
{
    match slot {
        Slot::Verb => name_in(0, VERBS, w),
        Slot::A | Slot::B => number_in(255, w),
        Slot::Number => number_in(0xFFFF_FFFF, w),
        Slot::Target => signed_in(w),
        Slot::Willing => name_in(0, WILLINGS, w),
        Slot::Word => name_in(0, DECISIONS, w),
        Slot::Telegram => name_in(1, TELEGRAMS, w),
        Slot::Own => name_in(1, OWN, w),
        Slot::End => None,
    }
}

// A space and one of some names.
fn put_spaced_name(w: &mut Writer, names: &[u8], k: usize)
    ensures { Wrote w.old w.new (ascii " " ++ nth_word names.now k) }
{
    w.byte(b' ');
    w.bytes(nth_word(names, k))
}

// The arbiter of a lock: nothing is said of one that is not among its controllers.
#[tactic(auto, unfolding(crate::specs::Forms::field_of, crate::specs::Forms::left_out, crate::specs::Forms::shown, crate::specs::Forms::spaced))]
fn put_own(w: &mut Writer, x: Fields)
    ensures { Wrote w.old w.new (spaced Slot.Own x) }
{
    if x.c == 0 {
        return w.bytes(b"");
    }
    put_spaced_name(w, OWN, usize::from(x.c).saturating_sub(1))
}

// A space and what stands at a place.
#[tactic(auto, unfolding(crate::specs::Forms::field_of, crate::specs::Forms::left_out, crate::specs::Forms::shown, crate::specs::Forms::spaced))]
fn put_spaced(w: &mut Writer, slot: Slot, x: Fields)
    ensures { Wrote w.old w.new (spaced slot x) }
{
    let v = field_of(slot, x);
    match slot {
        Slot::Verb => put_spaced_name(w, VERBS, v as usize),
        Slot::A | Slot::B | Slot::Number => w.field(v),
        Slot::Target => w.signed_field(v),
        Slot::Willing => put_spaced_name(w, WILLINGS, v as usize),
        Slot::Word => put_spaced_name(w, DECISIONS, v as usize),
        Slot::Telegram => put_spaced_name(w, TELEGRAMS, (v as usize).saturating_sub(1)),
        Slot::Own => put_own(w, x),
        Slot::End => w.bytes(b""),
    }
}

// The first word of a line.
fn put_verb(w: &mut Writer, kind: u8)
    ensures { Wrote w.old w.new (shown Slot.Verb kind) }
{
    w.bytes(nth_word(VERBS, usize::from(kind)))
}

// What follows the first word.
pub fn put_rest(w: &mut Writer, x: Fields)
    ensures { Wrote w.old w.new (rest_of x) }
{
    let row = row_of(x.kind, x.c);
    put_spaced(w, row.first, x);
    put_spaced(w, row.second, x);
    put_spaced(w, row.third, x);
    put_spaced(w, row.fourth, x);
    w.byte(b'\n')
}

// The line of a record.
pub(crate) fn put_line(w: &mut Writer, x: Fields)
    ensures { Wrote w.old w.new (line_of x) }
{
    put_verb(w, x.kind);
    put_rest(w, x)
}
