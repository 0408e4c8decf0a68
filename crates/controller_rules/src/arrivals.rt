// What arrives: votes, acknowledgements, help calls and help answers.
ghost use Rattle.std.specs.Prelude.{◌≡◌, cond, not, ◌&&◌, ◌||◌, leb, None};
ghost use Rattle.ground.specs.Mask.{has, insert};
ghost use Rattle.votes.specs.Joining.{join, agreed_or};
ghost use Rattle.protocol.specs.Controllers.{phase_in};
ghost use Rattle.protocol.specs.Rules.{send_to, vote_arrives, ack_arrives, helped_arrives, help_arrives};
ghost use Rattle.protocol.specs.Calls.{arrives};

use crate::waiting::propose_if_sufficient;
use controller_state::{
    becomes, helps, keep_ack, keep_helped, keeps_acks, nothing, passed_over, phase_in, received,
};
use ground::{has, insert};
use model::Kind;
use protocol::{Answer, Condition, Controller, HelpState, Outgoing};
use votes::{VoteSet, agreed_or, join};

// The vote set with another joined to it, if that is taken.
fn learned(takes: bool, own: VoteSet, s: VoteSet) -> VoteSet
    ensures { result ≡ cond takes (agreed_or own (join own s)) own }
{
    if takes {
        return agreed_or(own, join(own, s));
    }
    own
}

// A vote: at stage 0 or 1 it goes on the vote set.
pub fn vote_arrives(s: VoteSet, c: Controller) -> Answer
    ensures { result ≡ vote_arrives s c }
{
    let takes = phase_in(c.condition) <= 1;
    let votes = learned(takes, c.votes, s);
    let controller = Controller { votes, ..c };
    received(takes, controller, nothing())
}

// Is an acknowledgement of j kept? One per sender, until a word is put or an outcome is there.
pub fn takes_ack(condition: Condition, from: u32, waiting: bool, j: u8) -> bool
    ensures { result ≡ (not (has from j) && (leb (phase_in condition) 2 || waiting)) }
{
    if has(from, j) {
        return false;
    }
    keeps_acks(condition, waiting)
}

// An acknowledgement: kept, one per sender.
fn ack_arrives(n: u8, f: u8, j: u8, s: VoteSet, c: Controller) -> Answer
    ensures { result ≡ ack_arrives n f j s c }
{
    if takes_ack(c.condition, c.acks.from, c.help.waiting, j) {
        return propose_if_sufficient(n, f, becomes(keep_ack(c, j, s)));
    }
    passed_over(c)
}

// A help answer: counted while it waits, one per sender.
pub fn helped_arrives(n: u8, f: u8, j: u8, s: VoteSet, c: Controller) -> Answer
    ensures { result ≡ helped_arrives n f j s c }
{
    if has(c.helped.from, j) {
        return passed_over(c);
    }
    if c.help.waiting {
        return propose_if_sufficient(n, f, becomes(keep_helped(c, j, s)));
    }
    passed_over(c)
}

// The help vote set, sent back to a caller or to nobody.
fn answer_to_call(answers: bool, j: u8, votes: VoteSet) -> Option<Outgoing>
    ensures { result ≡ cond answers (send_to (insert 0 j) votes) None }
{
    if answers {
        return Some(Outgoing {
            to: insert(0, j),
            votes,
        });
    }
    None
}

// The callers with one more, if that call is taken.
fn called(takes: bool, callers: u32, j: u8) -> u32
    ensures { result ≡ cond takes (insert callers j) callers }
{
    if takes {
        return insert(callers, j);
    }
    callers
}

// A help call: before stage 3 it is kept, from then on answered, once per caller.
pub fn help_arrives(j: u8, c: Controller) -> Answer
    ensures { result ≡ help_arrives j c }
{
    let old = c.help;
    let takes = !has(old.callers, j);
    let early = phase_in(c.condition) <= 2;
    let answers = takes & !early;
    let sent = answer_to_call(answers, j, old.votes);
    let help = HelpState {
        callers: called(takes, old.callers, j),
        ..old
    };
    let controller = Controller { help, ..c };
    received(takes, controller, helps(None, sent))
}

// A message of each kind.
pub fn arrives(kind: Kind, n: u8, f: u8, from: u8, s: VoteSet, c: Controller) -> Answer
    ensures { result ≡ arrives kind n f from s c }
{
    match kind {
        Kind::Vote => vote_arrives(s, c),
        Kind::Ack => ack_arrives(n, f, from, s, c),
        Kind::Help => help_arrives(from, c),
        Kind::Helped => helped_arrives(n, f, from, s, c),
    }
}
