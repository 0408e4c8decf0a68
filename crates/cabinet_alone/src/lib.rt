// What holds of a cabinet, whatever C calls.
#![tactic(auto)]

ghost use Rattle.cabinet_alone.specs.CabinetAlone.{CabinetAlone};
ghost use Rattle.cabinet_alone.specs.SettledWord.{SettledWord};
ghost use Rattle.cabinet_alone.specs.Restart.{Restart};
ghost use Rattle.cabinet_alone.specs.SentAgain.{SentAgain};

use cabinet_state::encoding;
use protocol::controller_alone;

// Any list of calls on the words that C lends leaves words that the next call takes; for the controller in them it is a
// list of calls on a controller alone. So no two vote sets that it holds ever contradict each other, and the two counts
// are the numbers of senders held.
pub fn cabinet_alone()
    ensures { CabinetAlone }
{
    encoding();
    controller_alone();
}

// The word that its own ballot has settled: who is counted has taken it.
pub fn settled_word()
    ensures { SettledWord }
{}

// What a restart may do: one that wakes from a card stands by, and never runs in the card's order again.
pub fn restart()
    ensures { Restart }
{}

// What is sent again is what was sent, whatever came over the line meanwhile.
pub fn sent_again()
    ensures { SentAgain }
{
    encoding();
}
