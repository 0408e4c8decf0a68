// What a run remembers, so that steps can be taken back (document 02, U11): the places of the last events that are left, and two benches on the way.
// A step back sets the bench to the kept one at the front of its page of events, and plays the page again up to the event that is undone.
ghost use Rattle.std.specs.Prelude.{◌≡◌, ◌&&◌, true, ◌+◌, ◌-◌, ◌≤◌, ◌<◌, ltb, length};
ghost use Rattle.model.specs.Refusals.{numbered};
ghost use Rattle.schedule_reader.specs.Pieces.{record_at};
ghost use Rattle.bench_run.specs.Memory.{place_of, next_of, next_at, remembered, BackTaken, kept_of, ring_size};

use crate::{Next, Pause};
use model::{Act, Event, Refusal, answer_number};
use protocol::Bench;
use schedule_reader::record_at;
use steps_back::{MOST_REMEMBERED, back_question};

// So many events are a page: the longer, the fewer benches are kept, and the more events a step back plays again.
pub(crate) const PAGE: usize = 128;

// Two pages of places are kept.
pub(crate) const RING: usize = 256;

// A step back has kind 9, and no first field.
fn is_back(kind: u8, a: u8) -> bool {
    (kind == 9) & (a == 0)
}

// Does one of the four records from a place on look like a step back?
fn four_look_back(s: &[u8], at: usize) -> bool
    requires { at + 40 ≤ length s.now }
{
    if (s[at + 2] != 9) & (s[at + 12] != 9) & (s[at + 22] != 9) & (s[at + 32] != 9) {
        return false;
    }
    is_back(s[at + 2], s[at + 3])
        | is_back(s[at + 12], s[at + 13])
        | is_back(s[at + 22], s[at + 23])
        | is_back(s[at + 32], s[at + 33])
}

// Is there a record that looks like a step back? This decides the speed alone: a run that meets one without a memory begins again. Four records are looked at
// at a time, the last four perhaps twice; of fewer than four it is not asked.
pub(crate) fn looks_back(s: &[u8], from: usize) -> bool {
    if s.len() < from {
        return false;
    }
    let whole = (s.len() - from) / Event::LENGTH;
    if whole < 4 {
        return true;
    }
    let last = from + (whole - 4) * Event::LENGTH;
    let mut at = from;
    while at < last {
        if four_look_back(s, at) {
            return true;
        }
        at += 4 * Event::LENGTH;
    }
    four_look_back(s, last)
}

// Where the record lies that is played now: that of an event which is played again, or the next one.
pub(crate) fn place_of(
    remembers: bool,
    ring: &[usize],
    noted: usize,
    k: usize,
    left: usize,
) -> usize
    requires { (length ring.now ≡ ring_size) × (k < noted → (remembers ≡ true) × (noted - k ≤ left)) }
    ensures { result ≡ place_of ring.now noted k left }
{
    if !remembers {
        return k;
    }
    if k < noted {
        let i = (left - (noted - k)) % RING;
        return ring[i];
    }
    k
}

// Is it still to be noted what the record before came to?
pub(crate) fn is_pending(remembers: bool, noted: usize, k: usize) -> bool
    ensures { result ≡ (remembers && ltb noted k) }
{
    remembers && noted < k
}

fn next_of(read: Result<Act, Refusal>) -> Next
    ensures { result ≡ next_of (numbered read) }
{
    let Ok(act) = read else {
        return Next::Other(Pause::Refused(answer_number(read)));
    };
    match act {
        Act::Play(e) => Next::Play(e),
        Act::Back => Next::Other(Pause::Back),
    }
}

// What comes next: a note, if one is due, and else the record at a place.
pub(crate) fn next_at(s: &[u8], at: usize, pending: bool) -> Next
    ensures { result ≡ next_at pending (record_at s.now at) }
{
    if pending {
        return Next::Other(Pause::Note);
    }
    next_of(record_at(s, at))
}

// How many steps can be taken back after one more event; the first one is the lock, which none undoes.
pub(crate) fn remembered(undoable: usize, left: usize) -> usize
    ensures { result ≡ remembered undoable left }
{
    if left == 0 {
        return 0;
    }
    if undoable < MOST_REMEMBERED {
        return undoable + 1;
    }
    MOST_REMEMBERED
}

// What a step back leaves of what a run remembers.
// stays (no plainer): the run stores the number, and goes on from what is left where a step is refused too.
#[derive(Clone, Copy)]
pub(crate) struct Taken {
    pub answer: u8,
    pub k: usize,
    pub noted: usize,
    pub left: usize,
    pub undoable: usize,
}

// A step back, k records being played with it. The first one of a schedule sets the run to the front again, now with a memory. One that is accepted sets it to
// the front of the page in which the event stood that is undone.
pub(crate) fn step_back(
    remembers: bool,
    locked: bool,
    undoable: usize,
    left: usize,
    k: usize,
) -> Taken
    requires { (1 ≤ k) × (undoable ≤ left - 1) × (left ≤ k) }
    ensures { BackTaken remembers locked undoable left k result.answer result.k result.noted result.left result.undoable }
{
    if !remembers {
        return Taken {
            answer: 0,
            k: 0,
            noted: 0,
            left: 0,
            undoable: 0,
        };
    }
    let answer = answer_number(back_question(locked, undoable != 0));
    if answer != 0 {
        return Taken {
            answer,
            k,
            noted: k - 1,
            left,
            undoable,
        };
    }
    Taken {
        answer,
        k: k - (left - 1) % PAGE,
        noted: k,
        left: left - 1,
        undoable: undoable - 1,
    }
}

// The bench that is kept at the front of a page: pages go to the two in turn.
pub(crate) fn kept_of(left: usize, even: Bench, odd: Bench) -> Bench
    ensures { result ≡ kept_of left even odd }
{
    if left % RING < PAGE {
        return even;
    }
    odd
}
