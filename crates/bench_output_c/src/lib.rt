// What C and other languages call of bench_output (bin/archive bench_output): each export is its function, with its clauses.
#![tactic(auto)]

ghost use Rattle.std.specs.Prelude.{◌≡◌};
ghost use Rattle.text.specs.Writing.{Rendered};
ghost use Rattle.bench_output.specs.OpenGates.{open_gates_after};
ghost use Rattle.bench_output.specs.Output.{output_of};

// Writes the bench program's whole output for a schedule of records to the front of the buffer and answers its length; 0, and nothing written, if it does
// not fit. A slice passes as pointer and length.
#[unsafe(no_mangle)]
pub extern "C" fn bench_render(s: &[u8], out: &mut [u8]) -> usize
    ensures { Rendered (output_of s.now) out.old out.new result }
{
    bench_output::bench_render(s, out)
}

// How many gates are still open after a schedule, for a panel in another language. One that is too long is not run, and gets 255.
#[unsafe(no_mangle)]
pub extern "C" fn bench_open_gates(s: &[u8]) -> u8
    ensures { result ≡ open_gates_after s.now }
{
    bench_output::bench_open_gates(s)
}
