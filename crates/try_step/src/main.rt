// Plays the schedule on standard input as the bench program does, but record by record, by the step by value; steps back too. For comparison with another implementation.
#![tactic(auto)]

ghost use Rattle.std.specs.Prelude.{◌≤◌, ◌≡◌, length, take};

use bench_back::{Acted, Recall, act};
use bench_report::{
    LONGEST_OUTPUT, LONGEST_SCHEDULE, MOST_ANSWERS, is_too_long, write_report, write_too_long,
};
use bench_ring::{PLACES, Ring, place_before, ring_after};
use bench_state::new_bench;
use bench_summary::summary_of;
use model::{Act, Event, Refusal};
use protocol::Bench;
use schedule_reader::record_at;
use streams::{read_input, write_output};

// One record played; one that reading refuses leaves the bench as it is, and what is remembered.
fn played(b: Bench, remembers: bool, newest: Bench, r: Result<Act, Refusal>) -> Acted {
    match r {
        Ok(a) => act(b, remembers, newest, a),
        Err(q) => Acted {
            answer: u8::from(q),
            bench: b,
            recall: Recall::Same,
        },
    }
}

// Writes the whole output for a schedule to the front of the buffer and answers its length; 0 if it does not fit.
fn render(s: &[u8], out: &mut [u8]) -> usize
    ensures { (result ≤ length out.new) × (result ≡ length (take result out.new)) }
{
    if is_too_long(s.len()) {
        return write_too_long(&mut *out);
    }
    let mut answers = [0u8; MOST_ANSWERS];
    let mut b = new_bench();
    let mut past = [b; PLACES];
    let mut ring = Ring { at: 0, count: 0 };
    let mut k: usize = 0;
    while k * Event::LENGTH < s.len() {
        let here = ring.at;
        past[here] = b;
        let newest = past[place_before(here)];
        let done = played(b, ring.count != 0, newest, record_at(s, k * Event::LENGTH));
        answers[k] = done.answer;
        b = done.bench;
        let recall = done.recall;
        ring = ring_after(ring, recall);
        k += 1;
    }
    let stations = b.stations;
    write_report(&mut *out, &answers[..k], summary_of(b.shared, stations))
}

// stays (no plainer): `streams::print_rendered` asks which text is rendered, and `render`, which is compared and not proved, has no definition of it
fn main(rt: HostRuntime) {
    // one byte more than a schedule may have, so that a longer one is known by it
    let mut input = [0u8; LONGEST_SCHEDULE + 1];
    let Ok(n) = read_input(&rt, &mut input) else {
        return;
    };
    let mut text = [0u8; LONGEST_OUTPUT];
    let length = render(&input[..n], &mut text);
    let _ = write_output(&rt, &text[..length]);
}
