// Drives one controller by commands of 24 bytes from standard input, and prints a line for each: what the controller answered, what it
// shows, and what it sent. For comparison with another implementation.
#![tactic(auto)]

ghost use Rattle.std.specs.Prelude.{◌≤◌, length};

mod ballots;
mod command;
mod print;
mod print_ballots;

use ballots::{Call, Part, ballot_call, new_part, part_after, part_kept};
use command::{answer_to, identity_after, is_command, saved_by};
use controller_state::fresh;
use model::Checkpoint;
use print::{after_line, flush, put_line};
use print_ballots::put_call;
use protocol::{Answer, Controller, Identity};
use streams::{read_input, rounds};
use text::Writer;

const COMMAND: usize = 24;

// some commands at once
const CHUNK: usize = 2730 * COMMAND;

// The controller under trial, who it is, its part in ballots, and how many bytes of text wait in the buffer.
#[derive(Clone, Copy)]
struct Trial {
    pub me: Identity,
    pub c: Controller,
    pub part: Part,
    pub waiting: usize,
}

fn begin() -> Trial {
    Trial {
        me: Identity {
            n: 0,
            f: 0,
            id: 0,
            order: 0,
        },
        c: fresh(),
        part: new_part(false),
        waiting: 0,
    }
}

// The line of a command, into the buffer from a place on; where it ends.
fn line_into(
    out: &mut [u8],
    at: usize,
    me: Identity,
    answer: Answer,
    saved: Option<Checkpoint>,
    call: Call,
) -> usize {
    let room = out.len();
    let mut w = Writer { out, at };
    put_line(&mut w, me, answer, saved);
    put_call(&mut w, me, call);
    w.byte(b'\n');
    w.at.min(room)
}

fn step(rt: &HostRuntime, s: &[u8], t: Trial, out: &mut [u8]) -> Trial {
    if !is_command(s) {
        return t;
    }
    let me = identity_after(s, t.me);
    let c = t.c;
    let before = t.part;
    let held = part_kept(s, before);
    let call = ballot_call(s, me, c, held);
    let answer = answer_to(s, me, c, call.taken);
    let saved = saved_by(s, me, c);
    let end = line_into(&mut *out, t.waiting, me, answer, saved, call);
    let waiting = after_line(rt, out, end);
    let c = answer.controller;
    let part = part_after(held, call);
    Trial {
        me,
        c,
        part,
        waiting,
    }
}

// The commands of a chunk, one after the other. A short last one is left out.
fn chunk(rt: &HostRuntime, s: &[u8], t: Trial, out: &mut [u8]) -> Trial {
    let mut next = t;
    for command in s.chunks_exact(COMMAND) {
        next = step(rt, command, next, out);
    }
    next
}

// How many bytes came. Where reading failed, what came before it is answered.
fn read_chunk(rt: &HostRuntime, input: &mut [u8]) -> usize
    ensures { result ≤ length input.new }
{
    match read_input(rt, &mut *input) {
        Ok(n) => n,
        Err(cut) => cut.count,
    }
}

fn main(rt: HostRuntime) {
    let mut input = [0u8; CHUNK];
    let mut out = [0u8; 65536];
    let mut t = begin();
    rounds(100_000, || {
        let n = read_chunk(&rt, &mut input);
        t = chunk(&rt, &input[..n], t, &mut out);
        Ok(n == CHUNK)
    });
    flush(&rt, &out, t.waiting);
}
