// The run of a schedule on a new bench.
ghost use Rattle.std.specs.Prelude.{◌≡◌, true, cond, ◌-◌, ◌≤◌, ◌<◌, drop};
ghost use Rattle.ground.specs.Limit.{limit};
ghost use Rattle.protocol.specs.declared.Ballots.{Ballots};
ghost use Rattle.protocol.specs.Ballots.{ballot_limit};
ghost use Rattle.protocol.specs.Benches.{all_undecided};
ghost use Rattle.bench_run.specs.Schedule.{count};
ghost use Rattle.bench_run.specs.Runs.{end_of, RunAsDefined};

use crate::memory::{
    PAGE, RING, is_pending, kept_of, looks_back, next_at, place_of, remembered, step_back,
};
use crate::{Next, Pause, RunResult};
use ballot_rules::{new_acceptor, new_row};
use bench_state::{
    all_undecided, cast_question, decide_question, deliver_question, fresh_station, lock_question,
    may_give, may_open, new_shared, open_gates, order_opened, order_question, present_question,
    restore_question, timeout_question,
};
use bench_summary::summary_of;
use bench_turns::{
    ballot_of, ballot_turn, cast_turn, chosen_at, condition_of, decide_turn, first_turn, help_turn,
    helped_turn, is_saved, outgoing, rebuilt, renewed, report_in, restore_turn, save_turn,
    second_turn, settled_turn, stop_turn, subject_of, vote_turn, word_in,
};
use controller_rules::{counts_own, takes_ack};
use controller_state::{bump, cnt_if, from_if, phase_in, set_if};
use ground::{LIMIT, insert, up_to_limit};
use model::{Event, Kind, answer_number};
use protocol::{
    Acceptor, Acks, BALLOTS, BallotRow, Ballots, Bench, Cnt, Controller, Shared, Station,
};
use schedule_reader::{Reader, reader_at};
use votes::VoteSet;

// How many records there are from a place on, with a short last piece.
fn count_from(s: &[u8], from: usize) -> usize
    ensures { result ≡ count (drop from s.now) }
{
    if s.len() < from {
        return 0;
    }
    (s.len() - from + (Event::LENGTH - 1)) / Event::LENGTH
}

// What a run returns of the bench at its end, whatever its ballots.
fn ended(complete: bool, count: usize, m: Shared, stations: [Station; LIMIT]) -> RunResult
    ensures { (s : Ballots) → result ≡ end_of complete count (record { shared = m; ballots = s; stations = stations }) }
{
    RunResult {
        complete,
        count,
        open_gates: open_gates(m),
        summary: summary_of(m, stations),
    }
}

// The place of a station; of a number that has none, another one.
fn seat(id: u8) -> usize
    ensures { (result < limit) × (1 ≤ id → id ≤ limit → result ≡ id - 1) }
{
    (id as usize + (LIMIT - 1)) % LIMIT
}

// The place of a ballot; of a number that has none, another one.
fn slot(ballot: u32) -> usize
    ensures { (result < ballot_limit) × (1 ≤ ballot → ballot ≤ ballot_limit → result ≡ ballot - 1) }
{
    (ballot as usize + (BALLOTS - 1)) % BALLOTS
}

// The place of the ballot that is reported.
fn slot_reported(last: u8) -> usize
    ensures { (result < ballot_limit) × (1 ≤ last → result ≡ last - 1) }
{
    slot(last as u32)
}

// How many ballots question 18 looks at: at a lock with an arbiter none.
fn ballots_asked(own: bool) -> usize
    ensures { (result ≡ cond own ballot_limit 0) × (result ≤ ballot_limit) }
{
    if own {
        return BALLOTS;
    }
    0
}

// What is shared once the lock is set up: on a new bench nothing else changes.
fn locked(m: Shared, n: u8, f: u8, own: bool) -> Shared
    ensures { result ≡ record { locked = true; n = n; f = f; own = own; order = m.order; consensus = m.consensus; counts = all_undecided n } }
{
    let counts = all_undecided(n);
    Shared {
        locked: true,
        n,
        f,
        own,
        counts,
        ..m
    }
}

// Plays what stands from a place of the schedule on. The bench lies in this function's own variables: an event's questions are asked first, and one that
// is accepted changes one station where it lies. Of an event of ballots the turn asks too.
// At a lock with an arbiter the ballots stay new.
fn run_from(s: &[u8], from: usize, answers: &mut [u8]) -> RunResult
    ensures { RunAsDefined (drop from s.now) answers.old result answers.new }
{
    let count = count_from(s, from);
    let mut m = new_shared();
    let mut stations = [fresh_station(); LIMIT];
    if answers.len() < count {
        return ended(false, 0, m, stations);
    }
    let mut acceptors = [new_acceptor(); LIMIT];
    let mut rows = [new_row(); BALLOTS];
    let ballots = Ballots { acceptors, rows };
    let mut even = Bench {
        shared: m,
        ballots,
        stations,
    };
    let mut odd = even;
    let mut ring = [0usize; RING];
    let mut remembers = looks_back(s, from);
    let mut left: usize = 0;
    let mut undoable: usize = 0;
    let mut noted: usize = 0;
    let mut k: usize = 0;
    while k < count {
        let here = place_of(remembers, &ring, noted, k, left);
        let pending = is_pending(remembers, noted, k);
        let next = next_at(s, from + here * Event::LENGTH, pending);
        match next {
            Next::Other(pause) => match pause {
                Pause::Refused(answer) => {
                    answers[here] = answer;
                    k += 1;
                }
                Pause::Back => {
                    k += 1;
                    let t = step_back(remembers, m.locked, undoable, left, k);
                    answers[here] = t.answer;
                    k = t.k;
                    noted = t.noted;
                    left = t.left;
                    undoable = t.undoable;
                    remembers = true;
                    if t.answer != 0 {
                        continue;
                    }
                    let kept = kept_of(left, even, odd);
                    m = kept.shared;
                    stations = kept.stations;
                    acceptors = kept.ballots.acceptors;
                    rows = kept.ballots.rows;
                }
                Pause::Note => {
                    let last = k - 1;
                    noted = k;
                    if answers[last] != 0 {
                        continue;
                    }
                    ring[left % RING] = last;
                    undoable = remembered(undoable, left);
                    left += 1;
                    if left % PAGE != 0 {
                        continue;
                    }
                    let ballots = Ballots { acceptors, rows };
                    if left % RING < PAGE {
                        even = Bench {
                            shared: m,
                            ballots,
                            stations,
                        };
                        continue;
                    }
                    odd = Bench {
                        shared: m,
                        ballots,
                        stations,
                    };
                }
            },
            Next::Play(e) => match e {
                Event::Lock { n, f, own } => {
                    let answer = answer_number(lock_question(m, n, f));
                    answers[here] = answer;
                    k += 1;
                    if answer != 0 {
                        continue;
                    }
                    m = locked(m, n, f, own);
                }
                Event::Order { number } => {
                    let answer = answer_number(order_question(m, may_open(m), number));
                    answers[here] = answer;
                    k += 1;
                    if answer != 0 {
                        continue;
                    }
                    m = order_opened(m, number);
                    let end = up_to_limit(m.n) as usize;
                    let mut i: usize = 0;
                    while i < end {
                        stations[i] = renewed(stations[i]);
                        i += 1;
                    }
                    if !m.own {
                        continue;
                    }
                    acceptors = [new_acceptor(); LIMIT];
                    rows = [new_row(); BALLOTS];
                }
                Event::Cast {
                    id,
                    willing,
                    target,
                } => {
                    let at = seat(id);
                    let answer = answer_number(cast_question(
                        m,
                        condition_of(stations[at]),
                        id,
                        target,
                    ));
                    answers[here] = answer;
                    k += 1;
                    if answer != 0 {
                        continue;
                    }
                    stations[at] = cast_turn(m, stations[at], id, willing, target);
                }
                Event::Deliver {
                    from: sender,
                    to,
                    kind,
                } => {
                    let at = seat(to);
                    let origin = seat(sender);
                    let out = outgoing(kind, stations[origin]);
                    let answer = answer_number(deliver_question(
                        m,
                        condition_of(stations[at]),
                        out.to,
                        true,
                        sender,
                        to,
                        kind,
                    ));
                    answers[here] = answer;
                    k += 1;
                    if answer != 0 {
                        continue;
                    }
                    match kind {
                        Kind::Vote => {
                            let votes = VoteSet {
                                known: stations[origin].sent.vote.votes.known,
                                willing: stations[origin].sent.vote.votes.willing,
                            };
                            stations[at] = vote_turn(stations[at], votes);
                        }
                        Kind::Ack => {
                            let condition = condition_of(stations[at]);
                            let from = stations[at].controller.acks.from;
                            let waiting = stations[at].controller.help.waiting;
                            if !takes_ack(condition, from, waiting, sender) {
                                continue;
                            }
                            let own = stations[at];
                            let c = own.controller;
                            let mut sets = c.acks.sets;
                            sets[origin] = VoteSet {
                                known: stations[origin].sent.ack.votes.known,
                                willing: stations[origin].sent.ack.votes.willing,
                            };
                            let acks = Acks {
                                sets,
                                from: insert(c.acks.from, sender),
                                cnt: Cnt(bump(c.acks.cnt.0)),
                            };
                            let controller = Controller { acks, ..c };
                            let station = Station { controller, ..own };
                            stations[at] = station;
                            if !waiting {
                                continue;
                            }
                            let t = settled_turn(m, stations[at]);
                            m = t.shared;
                            let settled = t.station;
                            stations[at] = settled;
                        }
                        Kind::Help => {
                            stations[at] = help_turn(stations[at], sender);
                        }
                        Kind::Helped => {
                            let out = outgoing(Kind::Helped, stations[origin]);
                            let t = helped_turn(m, stations[at], sender, out.votes);
                            m = t.shared;
                            let station = t.station;
                            stations[at] = station;
                        }
                    }
                }
                Event::Timeout { id } => {
                    let at = seat(id);
                    let condition = condition_of(stations[at]);
                    let answer = answer_number(timeout_question(m, condition, id));
                    answers[here] = answer;
                    k += 1;
                    if answer != 0 {
                        continue;
                    }
                    if phase_in(condition) == 1 {
                        let own = stations[at];
                        let c = own.controller;
                        let counts = counts_own(m.f, id, c.acks.from);
                        let mut sets = c.acks.sets;
                        let votes = c.votes;
                        let held = sets[at];
                        sets[at] = set_if(counts, votes, held);
                        let acks = Acks {
                            sets,
                            from: from_if(counts, c.acks.from, id),
                            cnt: Cnt(cnt_if(counts, c.acks.cnt.0)),
                        };
                        let controller = Controller { acks, ..c };
                        let station = Station { controller, ..own };
                        stations[at] = first_turn(m, station, id);
                        continue;
                    }
                    let t = second_turn(m, stations[at], id);
                    m = t.shared;
                    let station = t.station;
                    stations[at] = station;
                }
                Event::Decide { id, to_move } => {
                    let at = seat(id);
                    let end = ballots_asked(m.own);
                    let mut chosen = false;
                    let mut i: usize = 0;
                    while i < end {
                        chosen = chosen_at(m.n, rows[i], to_move) | chosen;
                        i += 1;
                    }
                    let may = may_give(m, chosen, to_move);
                    let answer = answer_number(decide_question(
                        m,
                        condition_of(stations[at]),
                        may,
                        id,
                    ));
                    answers[here] = answer;
                    k += 1;
                    if answer != 0 {
                        continue;
                    }
                    let t = decide_turn(m, stations[at], to_move);
                    m = t.shared;
                    let station = t.station;
                    stations[at] = station;
                }
                Event::Stop { id } => {
                    let at = seat(id);
                    let answer = answer_number(present_question(m, condition_of(stations[at]), id));
                    answers[here] = answer;
                    k += 1;
                    if answer != 0 {
                        continue;
                    }
                    let t = stop_turn(m, stations[at]);
                    m = t.shared;
                    let station = t.station;
                    stations[at] = station;
                }
                Event::Save { id } => {
                    let at = seat(id);
                    let answer = answer_number(present_question(m, condition_of(stations[at]), id));
                    answers[here] = answer;
                    k += 1;
                    if answer != 0 {
                        continue;
                    }
                    stations[at] = save_turn(m, stations[at], id);
                }
                Event::Restore { id } => {
                    let at = seat(id);
                    let own = stations[at];
                    let answer = answer_number(restore_question(
                        m,
                        condition_of(own),
                        is_saved(own),
                        id,
                    ));
                    answers[here] = answer;
                    k += 1;
                    if answer != 0 {
                        continue;
                    }
                    let t = restore_turn(m, stations[at]);
                    m = t.shared;
                    let station = t.station;
                    stations[at] = station;
                }
                Event::OfBallots { event } => {
                    let e = rebuilt(event);
                    let at = seat(subject_of(e));
                    let place = slot(ballot_of(e));
                    let last = report_in(e, rows[place]);
                    let reported = word_in(last, rows[slot_reported(last)]);
                    let turn = ballot_turn(
                        m,
                        stations[at],
                        acceptors[at],
                        rows[place],
                        reported,
                        e,
                    );
                    answers[here] = answer_number(turn);
                    k += 1;
                    let Ok(t) = turn else {
                        continue;
                    };
                    let acceptor = t.acceptor;
                    acceptors[at] = acceptor;
                    let row = t.row;
                    rows[place] = row;
                }
            },
        }
    }
    ended(true, count, m, stations)
}

// Plays what a reader has before it: the run goes by the reader's slice and position.
fn run_reader<'a>(r: Reader<'a>, answers: &mut [u8]) -> RunResult
    ensures { RunAsDefined (drop r.entry.at r.entry.src.now) answers.old result answers.new }
{
    run_from(r.src, r.at, answers)
}

// Plays the whole schedule, by a reader at its front. One byte for each record goes into `answers`; if that is too short nothing is run, and the result
// says so.
pub fn run(s: &[u8], answers: &mut [u8]) -> RunResult
    ensures { RunAsDefined s.now answers.old result answers.new }
{
    run_reader(reader_at(s, 0), answers)
}
