// The state of the controllers and of the bench. The rules over it stand in specs/, and so does the claim about them.
#![tactic(auto)]

ghost use Rattle.protocol.specs.Alone.{ControllerAlone};
ghost use Rattle.protocol.specs.AskedInSequence.{AskedInSequence};
ghost use Rattle.protocol.specs.BallotClaim.{BallotsAgree};
ghost use Rattle.protocol.specs.BallotStrays.{BallotStrays};
ghost use Rattle.protocol.specs.BallotsNotHollow.{BallotsNotHollow};
ghost use Rattle.protocol.specs.Claim.{Demand3};
ghost use Rattle.protocol.specs.KeptCheckpoints.{KeptCheckpoints};
ghost use Rattle.protocol.specs.NoContradiction.{NoContradiction};
ghost use Rattle.protocol.specs.CleanMessages.{CleanMessages};
ghost use Rattle.protocol.specs.NotHollow.{NotHollow};
ghost use Rattle.protocol.specs.OpenCount.{OpenCount};
ghost use Rattle.protocol.specs.Reach.{Reach};
ghost use Rattle.protocol.specs.SentOnce.{SentOnce};
ghost use Rattle.protocol.specs.Strays.{Strays};
ghost use Rattle.protocol.specs.Termination.{Termination};
ghost use Rattle.protocol.specs.Trials.{TrialsHold};

use ground::LIMIT;
use model::{Checkpoint, Outcome};
use votes::VoteSet;

// How far a running controller is in its order (document 01: its stage, 0 to 3), and its outcome.
#[derive(Clone, Copy)]
pub struct Progress {
    pub phase: u8,
    pub outcome: Outcome,
}

// "A controller's condition is running, stopped or standing by, and it carries the outcome, if any."
#[derive(Clone, Copy)]
pub enum Condition {
    Running(Progress),
    Stopped,
    Standby(Outcome),
}

// How many acknowledgements are held, one per sender: the paper's cnt.
#[derive(Clone, Copy)]
pub struct Cnt(pub u8);

// How many help answers came in, one per sender: the paper's cnt_help.
#[derive(Clone, Copy)]
pub struct CntHelp(pub u8);

// The acknowledgements held: by sender, who has sent one, and how many.
#[derive(Clone, Copy)]
pub struct Acks {
    pub sets: [VoteSet; LIMIT],
    pub from: u32,
    pub cnt: Cnt,
}

// The help answers that came in: their join, who has sent one, and how many.
#[derive(Clone, Copy)]
pub struct HelpAnswers {
    pub votes: VoteSet,
    pub from: u32,
    pub cnt_help: CntHelp,
}

// A controller's own help: does it wait for answers (it has called, and put no word yet); its help vote set, frozen at the second timeout; whose help
// calls it has taken: before the second timeout they are kept, from then on they are answered.
#[derive(Clone, Copy)]
pub struct HelpState {
    pub waiting: bool,
    pub votes: VoteSet,
    pub callers: u32,
}

// The gate: where it is to go, and where it stands, in two's complement of millimetres.
#[derive(Clone, Copy)]
pub struct Gate {
    pub target: u32,
    pub position: u32,
}

#[derive(Clone, Copy)]
pub struct Controller {
    pub condition: Condition,
    // its own vote set
    pub votes: VoteSet,
    pub acks: Acks,
    pub helped: HelpAnswers,
    pub help: HelpState,
    // the word it put to the arbiter since it last began; document 02's U5 speaks of it (`HasPut`, Termination.antt), the trials look at it, and
    // at a lock without arbiter its ballots put it
    pub proposal: Outcome,
    pub gate: Gate,
}

// Which controller of which lock in which order: what does not change while the order lasts.
#[derive(Clone, Copy)]
pub struct Identity {
    pub n: u8,
    pub f: u8,
    pub id: u8,
    pub order: u32,
}

// A vote set, and to whom it is sent.
#[derive(Clone, Copy)]
pub struct Outgoing {
    pub to: u32,
    pub votes: VoteSet,
}

// What a call sends, by kind: nothing, or one vote set to a set of controllers.
#[derive(Clone, Copy)]
pub struct Sends {
    pub vote: Option<Outgoing>,
    pub ack: Option<Outgoing>,
    pub help: Option<Outgoing>,
    pub helped: Option<Outgoing>,
}

// How a controller took a call: taken; passed over; or refused, since the message's vote set contradicts one that it holds (document 02, U7).
#[derive(Clone, Copy, Debug, PartialEq, Eq)]
pub enum Reception {
    Taken,
    PassedOver,
    Contradicted,
}

// What a controller answers to a call: how it took it; the next controller; what it sends; the word it puts, if any.
#[derive(Clone, Copy)]
pub struct Answer {
    pub reception: Reception,
    pub controller: Controller,
    pub sends: Sends,
    pub proposal: Outcome,
}

// What a controller has sent in this order, by kind. It outlives a stop.
#[derive(Clone, Copy)]
pub struct Sent {
    pub vote: Outgoing,
    pub ack: Outgoing,
    pub help: Outgoing,
    pub helped: Outgoing,
}

// One controller on the bench: itself, what it has sent, its newest checkpoint (document 01: a card), if there is one.
#[derive(Clone, Copy)]
pub struct Station {
    pub controller: Controller,
    pub sent: Sent,
    pub saved: Option<Checkpoint>,
}

// The consensus (document 01: the arbiter) of one order: was Move put to it, was Stay, and its choice.
#[derive(Clone, Copy)]
pub struct Consensus {
    pub move_proposed: bool,
    pub stay_proposed: bool,
    pub decision: Outcome,
}

// How many controllers of the lock are undecided (they run, and have no outcome: document 02's gates still open), and how many are present (they run
// or stand by). A new order makes all that are present undecided.
#[derive(Clone, Copy)]
pub struct Counts {
    pub undecided: u8,
    pub present: u8,
}

// How many ballots an order has: "Ballots go from 1 to 255" (document 02, U14).
pub const BALLOTS: usize = 255;

// What a controller has promised and accepted in the ballots of its order (Lamport's acceptor): its highest promise; the ballot that it gave its last promise
// in; the ballot that it last accepted (document 02: took), and the word of it. 0 stands for none.
#[derive(Clone, Copy)]
pub struct Acceptor {
    pub highest: u8,
    pub promised: u8,
    pub last: u8,
    pub word: Outcome,
}

// What the owner of a ballot has counted for it: whose promises came in; the highest ballot that these report, and its word; the word that it put, if any.
#[derive(Clone, Copy)]
pub struct Tally {
    pub from: u32,
    pub top: u8,
    pub top_word: Outcome,
    pub word: Outcome,
}

// A promise, if one is given: it reports the ballot that its giver had last accepted, and the word of it.
// stays (promise): `Encoding` of cabinet_state: words of a cabinet that say not given, with a word, are taken and written again as they stand.
#[derive(Clone, Copy)]
pub struct Report {
    pub given: bool,
    pub last: u8,
    pub word: Outcome,
}

// What a controller answers to a call of one ballot: what it has promised and accepted now; what it has counted; the promise that it gives; whether it puts a
// word (the tally's), and whether it accepts one.
#[derive(Clone, Copy)]
pub struct BallotAnswer {
    pub acceptor: Acceptor,
    pub tally: Tally,
    pub promise: Report,
    pub proposes: bool,
    pub accepts: bool,
}

// One ballot on the bench: what its owner has counted; who has promised it, and which ballot each of them had last accepted then; who has accepted it ("the
// bench notes each taking, and a stop keeps the note"). What was sent in it follows from these.
#[derive(Clone, Copy)]
pub struct BallotRow {
    pub tally: Tally,
    pub promised_by: u32,
    pub lasts: [u8; LIMIT],
    pub accepted_by: u32,
}

// The ballots of an order: what each controller has promised and accepted, and each ballot.
#[derive(Clone, Copy)]
pub struct Ballots {
    pub acceptors: [Acceptor; LIMIT],
    pub rows: [BallotRow; BALLOTS],
}

// What the controllers of a bench share: their lock (`own`: do they settle the word by ballots of their own), their order (0 before the first), the consensus,
// and how many of them are undecided.
// stays (promise): `locked` beside n and f: `new_bench`, and what a report shows of it (`summary_of`), name the n of a bench without a lock.
#[derive(Clone, Copy)]
pub struct Shared {
    pub locked: bool,
    pub n: u8,
    pub f: u8,
    pub own: bool,
    pub order: u32,
    pub consensus: Consensus,
    pub counts: Counts,
}

// The bench: what is shared, the ballots, and up to LIMIT controllers.
#[derive(Clone, Copy)]
pub struct Bench {
    pub shared: Shared,
    pub ballots: Ballots,
    pub stations: [Station; LIMIT],
}

// What an event of one controller leaves: what is shared, and that controller's station.
#[derive(Clone, Copy)]
pub struct Effect {
    pub shared: Shared,
    pub station: Station,
}

// Demand 3 of the buyer, as a contract: it holds of the definitions over these types, for every list of events.
pub fn demand_3()
    ensures { Demand3 }
{}

// What takes the arbiter's place at a lock whose controllers settle the word by ballots (document 02, U14): in one order no two words are chosen, what is chosen
// was put there, and every word given is chosen.
pub fn ballots_agree()
    ensures { BallotsAgree }
{}

// It is not hollow: at every such lock the controllers can settle an order's word by a ballot, and all hold it.
pub fn ballots_not_hollow()
    ensures { BallotsNotHollow }
{}

// It is not hollow: for every lock and each of its controllers there are lists with a clean order, and the claim gives their outcomes; and for every
// lock there are clean orders that end everywhere.
pub fn clean_orders_exist()
    ensures { NotHollow }
{}

// The messages of a clean order that has ended everywhere (document 02, U10): fn votes, fn acknowledgements, no help call, no answer.
pub fn clean_messages()
    ensures { CleanMessages }
{}

// A running gate is never left waiting: document 02, U5, over every list of events, with lists that meet its premises and lists that lack one.
pub fn termination()
    ensures { Termination }
{}

// The T line counts the messages that were sent by the rules: none is sent twice in an order. What was sent stays, with its vote set, until the next
// order; and the messages of an answer, which a cabinet sends one by one, are as many as it sends.
pub fn sent_once()
    ensures { SentOnce }
{}

// The number of gates still open that the bench keeps is the full count, after every list of events, and question 13 goes by it as document 01 says.
pub fn open_count()
    ensures { OpenCount }
{}

// The numbers of the questions that the bench puts to each kind of event, in their sequence, of every bench.
pub fn asked_in_sequence()
    ensures { (b : Bench) → AskedInSequence b }
{}

// After an accepted save a controller's checkpoint (document 01: its card) is what was shown of it then, until its next accepted one; before the first it has none.
pub fn kept_checkpoints()
    ensures { KeptCheckpoints }
{}

// Stages, positions and vote sets stay in range, and what is sent or saved passes the questions of its record and is read back as it was.
pub fn reach()
    ensures { Reach }
{}

// No event of any list from a new bench meets vote sets that contradict each other: 24 is never answered there, and all is as without the test.
pub fn no_contradiction()
    ensures { NoContradiction }
{}

// What a controller, on the bench or alone, does with a vote set that contradicts one that it holds.
pub fn stray_messages()
    ensures { Strays }
{}

// What a controller passes over in ballots: telegrams of another order, n or f, for another controller, from another than the ballot's owner, and all of them where
// it takes no part.
pub fn stray_ballots()
    ensures { BallotStrays }
{}

// A controller alone, through any calls: no two vote sets that it holds ever contradict each other, each join of its rules is there, its own vote stands on
// its own vote set, and the two counts are the numbers of senders held.
pub fn controller_alone()
    ensures { ControllerAlone }
{}

// The starred trials of document 01, run by the definitions: every row of the table in specs/Trials.antt shows what the document says of it. And the other
// tables: rules and one standing by, where a row alone tells right from wrong (RuleTrials, StandbyTrials); the numbers that events give (QuestionTrials); help
// calls that come early, and messages in their sequence (EarlyCallTrials); the count of gates still open; stray messages (StrayTrials); a controller alone
// (AloneTrials).
pub fn trials_hold()
    ensures { TrialsHold }
{}
