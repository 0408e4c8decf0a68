// The figures of many schedules, one after the other.
ghost use Rattle.std.specs.Prelude.{◌≡◌, ◌≤◌, ◌+◌, ◌*◌, length};
ghost use Rattle.model.specs.Questions.{accepted};
ghost use Rattle.event_record.specs.Events.{event_length};
ghost use Rattle.generator.specs.Claim.{records_in};
ghost use Rattle.survey.specs.Questions.{refusal_of};
ghost use Rattle.survey.specs.Surveys.{endings_with, messages_with, all_kinds, most_with, nothing, with_one, survey_of};
ghost use Rattle.survey_output.specs.Bounds.{most_endings, most_sent, most_of_one, HasRoom};
ghost use Rattle.survey_output.specs.Schedules.{end_of};

use crate::schedules::end_in;
use bench_report::{MessageCounts, Summary};
use generator::{LONGEST_OUTPUT as LONGEST_FILE, file_length};
use survey::{Ending, Endings, Most, Survey, ending_of};

// One schedule more, of that ending.
fn endings_with(e: Endings, ending: Ending) -> Endings
    requires { e.moved + e.stayed + e.rest ≤ most_endings }
    ensures { result ≡ endings_with e ending }
{
    match ending {
        Ending::Moved => Endings {
            moved: e.moved + 1,
            ..e
        },
        Ending::Stayed => Endings {
            stayed: e.stayed + 1,
            ..e
        },
        Ending::Rest => Endings {
            rest: e.rest + 1,
            ..e
        },
    }
}

// The messages of each kind, with those of one schedule more.
fn messages_with(m: MessageCounts, sent: MessageCounts) -> MessageCounts
    requires { (all_kinds m ≤ most_sent) × (all_kinds sent ≤ most_of_one) }
    ensures { result ≡ messages_with m sent }
{
    MessageCounts {
        vote: m.vote + sent.vote,
        ack: m.ack + sent.ack,
        help: m.help + sent.help,
        helped: m.helped + sent.helped,
    }
}

// All kinds together.
fn all_kinds(m: MessageCounts) -> u32
    requires { all_kinds m ≤ most_of_one }
    ensures { result ≡ all_kinds m }
{
    m.vote + m.ack + m.help + m.helped
}

// The most in one schedule so far, and the first number that had so many.
fn most_with(m: Most, sent: u32, number: u32) -> Most
    ensures { result ≡ most_with m sent number }
{
    if m.sent < sent {
        return Most { sent, number };
    }
    m
}

// One schedule more.
fn with_one(r: Survey, number: u32, end: Summary) -> Survey
    requires { HasRoom r end }
    ensures { result ≡ with_one r number end }
{
    let sent = end.messages;
    let endings = r.endings;
    let messages = r.messages;
    let most = r.most;
    let total = all_kinds(sent);
    Survey {
        endings: endings_with(endings, ending_of(end)),
        messages: messages_with(messages, sent),
        most: most_with(most, total, number),
        sum: r.sum + total,
    }
}

// Before the first, which is to have that number.
fn nothing(s: u32) -> Survey
    ensures { result ≡ nothing s }
{
    Survey {
        endings: Endings {
            moved: 0,
            stayed: 0,
            rest: 0,
        },
        messages: MessageCounts {
            vote: 0,
            ack: 0,
            help: 0,
            helped: 0,
        },
        most: Most { sent: 0, number: s },
        sum: 0,
    }
}

// The schedules of the numbers s to s + k − 1, one after the other in a lent buffer.
fn survey_in(file: &mut [u8], n: u8, f: u8, count: u32, s: u32, k: u32) -> Survey
    requires { (refusal_of n f count s k ≡ accepted) × (length file.old ≡ event_length * records_in n count) }
    ensures { result ≡ survey_of (end_of n f count) s k }
{
    let mut r = nothing(s);
    for done in 0..k {
        let number = s + done;
        let end = end_in(&mut *file, n, f, count, number);
        r = with_one(r, number, end);
    }
    r
}

// The same in a buffer of its own, which holds every file of the generator.
pub(crate) fn survey_of(n: u8, f: u8, count: u32, s: u32, k: u32) -> Survey
    requires { refusal_of n f count s k ≡ accepted }
    ensures { result ≡ survey_of (end_of n f count) s k }
{
    let length = file_length(n, count);
    let mut file = [0u8; LONGEST_FILE];
    survey_in(&mut file[..length], n, f, count, s, k)
}
