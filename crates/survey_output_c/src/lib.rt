// What C and other languages call of survey_output (bin/archive survey_output): the export is its function, with its clauses.
#![tactic(auto)]

ghost use Rattle.text.specs.Writing.{Rendered};
ghost use Rattle.survey_output.specs.Output.{output_of};

// Writes the report program's whole output for an input to the front of the buffer and answers its length; 0, and nothing written, if it does not fit. A
// slice passes as pointer and length.
#[unsafe(no_mangle)]
pub extern "C" fn report_render(input: &[u8], out: &mut [u8]) -> usize
    ensures { Rendered (output_of input.now) out.old out.new result }
{
    survey_output::report_render(input, out)
}
