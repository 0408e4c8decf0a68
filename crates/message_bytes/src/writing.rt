// The bytes of a telegram in each form, from its fields, and writing them: the head, the two sets, and a ballot's four bytes more.
ghost use Rattle.std.specs.Prelude.{◌≡◌, ◌≤◌, ◌∷◌, ◌++◌, length};
ghost use Rattle.model.specs.Refusals.{reply_of};
ghost use Rattle.records.specs.Bytes.{bytes2, bytes4};
ghost use Rattle.records.specs.Frames.{PutUnless};
ghost use Rattle.message_record.specs.Telegrams.{formed, more_numbers, bytes_in};

use crate::forms::mark_of;
use message_record::{BallotFields, Fields, MessageBody, MessageWidth, TelegramForm};
use model::{Refusal, Telegram};
use records::write_record;
use votes::VoteSet;

fn head_bytes(mark: u32, x: Fields) -> [u8; 12]
    ensures { result ≡ bytes2 mark ++ (x.kind ∷ x.n ∷ x.f ∷ x.from ∷ x.to ∷ x.spare ∷ bytes4 x.order) }
{
    let mark = mark.to_be_bytes();
    let order = x.order.to_be_bytes();
    [
        mark[2], mark[3], x.kind, x.n, x.f, x.from, x.to, x.spare, order[0], order[1], order[2],
        order[3],
    ]
}

// Question 9 leaves no bit above n: two bytes hold each of the sets where question 4 lets a short form through.
fn short_sets(votes: VoteSet) -> [u8; 4]
    ensures { result ≡ bytes2 votes.known ++ bytes2 votes.willing }
{
    let known = votes.known.to_be_bytes();
    let willing = votes.willing.to_be_bytes();
    [known[2], known[3], willing[2], willing[3]]
}

fn long_sets(votes: VoteSet) -> [u8; 8]
    ensures { result ≡ bytes4 votes.known ++ bytes4 votes.willing }
{
    let known = votes.known.to_be_bytes();
    let willing = votes.willing.to_be_bytes();
    [
        known[0], known[1], known[2], known[3], willing[0], willing[1], willing[2], willing[3],
    ]
}

// Fills a buffer of their length with the three parts.
fn fill(out: &mut [u8], head: &[u8], sets: &[u8], more: &[u8])
    requires { length out.old ≡ length (head.now ++ (sets.now ++ more.now)) }
    ensures { out.new ≡ head.now ++ (sets.now ++ more.now) }
{
    let (first, rest) = out.split_at_mut(head.len());
    let (second, third) = rest.split_at_mut(sets.len());
    first.copy_from_slice(head);
    second.copy_from_slice(sets);
    third.copy_from_slice(more);
}

// Writes the record of the three parts, unless there is a refusal.
fn write_parts(
    out: &mut [u8],
    head: &[u8],
    sets: &[u8],
    more: &[u8],
    asked: Result<(), Refusal>,
) -> Result<(), Refusal>
    requires head_fits { length head.now ≤ 12 }
    requires sets_fit { length sets.now ≤ 8 }
    requires more_fits { length more.now ≤ 4 }
    ensures { PutUnless (head.now ++ (sets.now ++ more.now)) (reply_of asked) out.old out.new (reply_of result) }
{
    let length = head.len() + sets.len() + more.len();
    let mut content = [0u8; Telegram::LONG_BALLOT_LENGTH];
    fill(&mut content[..length], head, sets, more);
    write_record(out, &content[..length], asked)
}

fn write_body(
    out: &mut [u8],
    body: MessageBody,
    head: &[u8],
    sets: &[u8],
    x: BallotFields,
    asked: Result<(), Refusal>,
) -> Result<(), Refusal>
    requires head_fits { length head.now ≤ 12 }
    requires sets_fit { length sets.now ≤ 8 }
    ensures { PutUnless (head.now ++ (sets.now ++ more_numbers body x)) (reply_of asked) out.old out.new (reply_of result) }
{
    match body {
        MessageBody::Votes => write_parts(out, head, sets, &[], asked),
        MessageBody::Ballot => {
            let more = [x.ballot, x.last, x.word, x.spare];
            write_parts(out, head, sets, &more, asked)
        }
    }
}

pub(crate) fn write_in(
    out: &mut [u8],
    form: TelegramForm,
    x: Fields,
    asked: Result<(), Refusal>,
) -> Result<(), Refusal>
    ensures { PutUnless (bytes_in form x) (reply_of asked) out.old out.new (reply_of result) }
{
    let width = form.width;
    let body = form.body;
    let votes = x.votes;
    let more = x.more;
    let head = head_bytes(mark_of(width), x);
    match width {
        MessageWidth::Short => write_body(out, body, &head, &short_sets(votes), more, asked),
        MessageWidth::Long => write_body(out, body, &head, &long_sets(votes), more, asked),
    }
}
