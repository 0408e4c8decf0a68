// The one line to the arbiter that the locks of a flight share: who calls for it, and who is served next.
#![tactic(auto)]

ghost use Rattle.std.specs.Prelude.{◌≡◌};
ghost use Rattle.line.specs.Turns.{new_line, is_lock, calls, unchanged, call_of, up, first_caller, turn_of, perform, number};
ghost use Rattle.line.specs.Claim.{FairLine};
ghost use Rattle.line.specs.Examples.{ExamplesHold};

// Locks are numbered from 1 to this.
pub(crate) const LOCKS: u8 = 8;

#[derive(Clone, Copy)]
pub struct Line {
    // at k - 1: is lock k calling
    pub calling: [bool; 8],
    // the lock served last; 0 before any was
    pub last: u8,
}

// stays (no plainer): as an Option, a turn would be the lack of a lock's number.
#[derive(Clone, Copy)]
pub enum Act {
    Turn,
    Call(u8),
}

// stays (promise): `perform` answers either act in one type, and the sentences of `FairLine` go by its answers.
#[derive(Clone, Copy)]
pub enum Answer {
    // to a call
    Accepted,
    Refused,
    // to a turn
    Served(u8),
    Nobody,
}

// What an act leaves and what it answers.
#[derive(Clone, Copy)]
pub struct Done {
    pub line: Line,
    pub answer: Answer,
}

// A line on which nobody has called yet.
pub fn new_line() -> Line
    ensures { result ≡ new_line }
{
    Line {
        calling: [false; 8],
        last: 0,
    }
}

// Is it the number of a lock?
fn is_lock(lock: u8) -> bool
    ensures { result ≡ is_lock lock }
{
    1 <= lock && lock <= LOCKS
}

// Is this lock calling? A number that is no lock never is.
#[tactic(auto, unfolding(crate::specs::Turns::calls))]
pub fn is_calling(line: Line, lock: u8) -> bool
    ensures { result ≡ calls line lock }
{
    is_lock(lock) && line.calling[lock as usize - 1]
}

// An answer that leaves the line as it was.
fn unchanged(line: Line, answer: Answer) -> Done
    ensures { result ≡ unchanged line answer }
{
    Done { line, answer }
}

// A call for the line; 25 for a number that is no lock.
#[tactic(auto, unfolding(crate::specs::Turns::call_of))]
pub fn call(line: Line, lock: u8) -> Done
    ensures { result ≡ call_of line lock }
{
    if !is_lock(lock) {
        return unchanged(line, Answer::Refused);
    }
    let mut line = line;
    line.calling[lock as usize - 1] = true;
    Done {
        line,
        answer: Answer::Accepted,
    }
}

// The lock met after this one on the way up. After a number that is no lock it is 1.
#[tactic(auto, unfolding(crate::specs::Turns::up))]
fn lock_after(lock: u8) -> u8
    ensures { result ≡ up lock }
{
    if lock < LOCKS {
        return lock + 1;
    }
    1
}

// The first caller met from this lock on up, or 0.
// stays (promise): the definition's `first_caller` has 0 for none, as `last` has.
fn first_caller(line: Line, from: u8) -> u8
    ensures { result ≡ first_caller line 8 from }
{
    let mut lock = from;
    for met in 0..LOCKS {
        if is_calling(line, lock) {
            return lock;
        }
        lock = lock_after(lock);
    }
    0
}

// A turn of the line: the next caller is served and its call ends.
pub fn turn(line: Line) -> Done
    ensures { result ≡ turn_of line }
{
    let from = lock_after(line.last);
    let lock = first_caller(line, from);
    if lock < 1 {
        return unchanged(line, Answer::Nobody);
    }
    let mut line = line;
    line.calling[lock as usize - 1] = false;
    line.last = lock;
    Done {
        line,
        answer: Answer::Served(lock),
    }
}

// Document 02's number for the answer to a call: 0 accepted, or 25.
pub fn refusal(answer: Answer) -> u8
    ensures { result ≡ number answer }
{
    match answer {
        Answer::Accepted => 0,
        Answer::Refused => 25,
        Answer::Served(_) => 0,
        Answer::Nobody => 0,
    }
}

// Either act.
#[tactic(auto, unfolding(crate::specs::Turns::perform))]
pub fn perform(line: Line, act: Act) -> Done
    ensures { result ≡ perform line act }
{
    match act {
        Act::Turn => turn(line),
        Act::Call(lock) => call(line, lock),
    }
}

// What the line promises, as a contract: it holds of every list of acts on a new line. And small runs of it.
pub fn fair_line()
    ensures fair_line { FairLine }
    ensures examples_hold { ExamplesHold }
{}
