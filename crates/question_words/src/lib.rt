// The words of the questions, and the one table of them in code.
#![tactic(auto)]

ghost use Rattle.text.specs.Writers.{Wrote};
ghost use Rattle.question_words.specs.Questions.{question_words};

use text::Writer;
use words::nth_line;

// The words of a question; nothing for a number that no question has. Line k of the text is question k.
pub fn put_question(w: &mut Writer, number: u8)
    ensures { Wrote w.old w.new (question_words number) }
{
    let words = nth_line(
        b"
Is the record as long as it should be?
Does it begin with its mark?
Are the kind and the flags listed values, and unused fields 0?
Are n and f in range?
Is a lock set up?
Is no lock set up yet?
Are the controllers' numbers in 1 to n, sender and receiver different?
Is the order number at least 1?
Does the sheet suit the kind?
May this kind go from the one to the other?
Is the position from -20,000 to 20,000 mm?
Is the order number above the last one?
Has every running controller an outcome, or was no order opened yet?
Is an order open?
Is the controller in the right condition?
Is its stage right?
Was that telegram sent in this order?
Was that word put in this order, and no other given? Without an arbiter: has a ballot settled it?
Has the controller a card?
Are all four levels from -100,000 to 100,000 mm?
Is each range's low not above its high?
Are there at most 1,000 lockages, and is every length from 1 to 2,500 cm?
Is the starting number not 0, and the count at most 4,000?
Does the delivered sheet contradict none that the controller holds?
Is the calling lock one of 1 to 8?
Is there an event to undo?
Is k from 1 to 1,000, s not 0, and s + k - 1 at most 4,294,967,295?
Is it a ballot from 1 to 255, and may the controller open it?
Has the lock no arbiter, and has the controller put a word?
Is the card this controller's own?",
        usize::from(number),
    );
    w.bytes(words)
}
