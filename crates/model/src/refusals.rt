// Refusals as the numbers that the documents give them.
ghost use Rattle.std.specs.Prelude.{ℕ, ◌≡◌, Ok, Err, cond};
ghost use Rattle.model.specs.Questions.{number};
ghost use Rattle.model.specs.Refusals.{refusal_number, reply_of};

use crate::Refusal;

// What a refusal may be named by: the question, or a number alone, as a caller has it that knows of other refusals than these.
pub trait Numbered: Copy {
    ghost number: { Self → ℕ };

    // The name of a question.
    fn of(q: Refusal) -> Self
        ensures { number result ≡ refusal_number q };
}

impl Numbered for Refusal {
    ghost number = { refusal_number };

    fn of(q: Refusal) -> Refusal {
        q
    }
}

impl Numbered for u8 {
    ghost number = { λ x. x };

    fn of(q: Refusal) -> u8 {
        u8::from(q)
    }
}

impl From<Refusal> for u8 {
    ghost from_gives = { λ q x. x ≡ refusal_number q };

    fn from(q: Refusal) -> u8 {
        q as u8
    }
}

// The number that is returned or printed: 0 where there is no refusal.
pub fn answer_number<T: Copy>(answer: Result<T, Refusal>) -> u8
    ensures { result ≡ number (reply_of answer) }
{
    match answer {
        Ok(_) => 0,
        Err(q) => u8::from(q),
    }
}

// A question: a "no" refuses.
pub fn ask(yes: bool, question: Refusal) -> Result<(), Refusal>
    ensures { result ≡ cond yes (Ok tt) (Err question) }
{
    if yes { Ok(()) } else { Err(question) }
}
