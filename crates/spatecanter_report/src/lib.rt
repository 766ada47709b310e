// The report for C and Rust callers: the answer goes into an array that the caller lends. A crate of its own, so that the
// functions that `sp_read_tape` shares with it stay part of its loops.
#![tactic(auto)]

ghost use Rattle.std.specs.Prelude.{◌≡◌};
ghost use Rattle.octets.specs.Answer.{numbers_of};
ghost use Rattle.report.specs.Report.{report_outcome, counted_in};

use octets::refusal;
use report::Report;

// Counts a tape of the machine with so many fonts, 4 or 8, in a report.
#[unsafe(no_mangle)]
pub extern "C" fn sp_count_tape(
    tape: &[u8],
    machine: u32,
    report: &mut Report,
    answer: &mut [usize; 3],
)
    ensures { (answer.new ≡ numbers_of (report_outcome report.old)) × (report.new ≡ counted_in report.old tape.now machine) }
{
    *answer = refusal::numbers(report::count_tape(tape, machine, report));
}
