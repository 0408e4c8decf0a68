// The schedule of a generator number, drawn and run.
ghost use Rattle.std.specs.Prelude.{◌≡◌, ◌*◌, length};
ghost use Rattle.model.specs.Questions.{accepted};
ghost use Rattle.event_record.specs.Events.{event_length};
ghost use Rattle.generator.specs.Claim.{records_in};
ghost use Rattle.generator.specs.File.{refusal_of};
ghost use Rattle.survey_output.specs.Schedules.{end_of};

use bench_report::{MOST_ANSWERS, Summary};
use bench_run::run;
use generator::generate;

// What the bench shows at the end of a number's schedule. Its file is made in a lent buffer, which is as long.
pub(crate) fn end_in(file: &mut [u8], n: u8, f: u8, count: u32, number: u32) -> Summary
    requires { (refusal_of n f count number ≡ accepted) × (length file.old ≡ event_length * records_in n count) }
    ensures { result ≡ end_of n f count number }
{
    // it is not refused, by the `requires`
    let _ = generate(n, f, count, number, &mut *file);
    let mut answers = [0u8; MOST_ANSWERS];
    let r = run(file, &mut answers);
    r.summary
}
