// The count of gates still open, for other languages.
ghost use Rattle.std.specs.Prelude.{◌≡◌};
ghost use Rattle.bench_output.specs.OpenGates.{open_gates_after};

use bench_report::{MOST_ANSWERS, is_too_long};
use bench_run::run;

// How many gates are still open after a schedule, for a panel in another language. One that is too long is not run, and gets 255.
#[unsafe(no_mangle)]
pub extern "C" fn bench_open_gates(s: &[u8]) -> u8
    ensures { result ≡ open_gates_after s.now }
{
    if is_too_long(s.len()) {
        return 255;
    }
    let mut answers = [0u8; MOST_ANSWERS];
    let r = run(s, &mut answers);
    r.open_gates
}
