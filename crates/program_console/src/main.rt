// The console: a bench to sit at. It reads a schedule in text a line at a time, plays each event by the bench's own act, and shows what came of it.
#![tactic(auto)]

mod hearing;
mod telling;

use bench_back::{Acted, Recall, act};
use bench_ring::{PLACES, Ring, place_before, ring_after};
use bench_state::new_bench;
use hearing::{Heard, ROOM, first_lines, hear, next_line};
use protocol::Bench;
use streams::{is_terminal, write_output};
use telling::{greet, prompt, tell};

// What is heard, played; what is no event leaves the bench as it is, and what is remembered.
fn played(b: Bench, remembers: bool, newest: Bench, heard: Heard) -> Acted {
    match heard {
        Heard::Nothing => Acted {
            answer: 0,
            bench: b,
            recall: Recall::Same,
        },
        Heard::Help => Acted {
            answer: 0,
            bench: b,
            recall: Recall::Same,
        },
        Heard::Unexpected(_word) => Acted {
            answer: 0,
            bench: b,
            recall: Recall::Same,
        },
        Heard::Plays(a) => act(b, remembers, newest, a),
    }
}

// How many acts there were then. (No input has so many that the number ends.)
fn count_after(k: u32, heard: Heard) -> u32 {
    if let Heard::Plays(_a) = heard {
        return k.saturating_add(1);
    }
    k
}

fn main(rt: HostRuntime) {
    let terminal = is_terminal(&rt);
    greet(&rt, terminal);
    let mut input = [0u8; ROOM];
    let Some(first) = first_lines(&rt, &mut input, terminal) else {
        return;
    };
    let mut have = first;
    if ROOM < have {
        return;
    }
    let mut at: usize = 0;
    let mut line: usize = 1;
    let mut b = new_bench();
    let mut past = [b; PLACES];
    let mut indices = [0u32; PLACES];
    let mut ring = Ring { at: 0, count: 0 };
    let mut k: u32 = 0;
    // each line is one byte further on, so there are no more lines than bytes
    // stays (no plainer): each turn goes on to the next line, and reads until that has ended
    while at <= have {
        let Some(found) = next_line(&rt, &mut input, at, have) else {
            return;
        };
        have = found.have;
        let end = found.end;
        // one more than a text may have
        if ROOM <= have {
            let _ = write_output(&rt, b"- 1\n");
            return;
        }
        if end < at {
            return;
        }
        if have < end {
            return;
        }
        let heard = hear(&input, at, end, terminal);
        let here = ring.at;
        let newest_at = place_before(here);
        // the ring has no other places: `bench_ring::ring_after`, `place_before`
        if PLACES <= here {
            return;
        }
        if PLACES <= newest_at {
            return;
        }
        past[here] = b;
        indices[here] = k;
        let newest = past[newest_at];
        let undone = indices[newest_at];
        let done = played(b, ring.count != 0, newest, heard);
        let after = done.bench;
        if !tell(
            &rt,
            terminal,
            heard,
            &input,
            have,
            line,
            k,
            undone,
            done.answer,
            b,
            after,
        ) {
            return;
        }
        let recall = done.recall;
        ring = ring_after(ring, recall);
        b = after;
        k = count_after(k, heard);
        if found.last {
            return;
        }
        prompt(&rt, terminal);
        at = end + 1;
        line += 1;
    }
}
