// What the console shows of a list of acts: the definitions, that it is what the bench program prints, and rows worked by hand stand in specs/.
#![tactic(auto)]

ghost use Rattle.trace.specs.Claim.{AsPrinted};
ghost use Rattle.trace.specs.Examples.{ExamplesHold};

// The answers of a trace, and the C line last shown of each controller, are those of the bench program's report.
pub fn as_printed()
    ensures { AsPrinted }
{}

// Traces worked by hand from the documents.
pub fn examples_hold()
    ensures { ExamplesHold }
{}
