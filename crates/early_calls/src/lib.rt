// Help calls that come early (document 02, U4), held against document 01: what specs/Document01.antt says, as a contract.
#![tactic(auto)]

ghost use Rattle.early_calls.specs.Document01.{AsDocument01};

// A list with kept calls gives the bench that document 01 gives when each kept call is delivered once more right after the receiver's second timeout.
pub fn as_document_01()
    ensures { AsDocument01 }
{}
