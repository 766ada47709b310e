// Document 02, "The cabinet in numbers": a report over at most 65,536 tapes, kept by the caller.
#![tactic(auto)]

ghost use Rattle.std.specs.Prelude.{◌≡◌, length};
ghost use Rattle.octets.specs.Answer.{outcome_of};
ghost use Rattle.figures.specs.Figures.{Figures};
ghost use Rattle.figures.specs.Counting.{number_found, Tallied};
ghost use Rattle.report.specs.Report.{number_entry, amount, added, report_outcome, counted_in};

use figures::Lead;
use galley_file::font;
use octets::refusal::{Answer, Reason};

// Tapes counted, accepted, refused under 1 to 10 and under 50, characters of each font number, forward and backward lead.
pub type Report = [u64; ENTRIES];

const ENTRIES: usize = FORWARD + 2;

pub const MAX_TAPES: u64 = 65_536;

// Where the accepted tapes, the refusals under 50, the font numbers and the leads stand.
const ACCEPTED: usize = 1;

const NO_MACHINE_ENTRY: usize = 12;

const FIRST_FONT: usize = 13;

const FORWARD: usize = FIRST_FONT + font::FONTS as usize;

// The entry of the tapes that are answered so.
fn entry_of(tally: Result<Lead, Reason>) -> usize
    ensures { result ≡ number_entry (number_found tally) }
{
    match tally {
        Ok(_) => ACCEPTED,
        Err(Reason::NoMachine) => NO_MACHINE_ENTRY,
        Err(reason) => reason.number() as usize + 1,
    }
}

// What a tape adds to an entry.
fn amount_of(tally: Result<Lead, Reason>, fonts: &[u64], i: usize) -> u64
    requires { length fonts.now ≡ 120 }
    ensures { (f : Figures) → Tallied f tally fonts.now → result ≡ amount f i }
{
    if i == 0 {
        return 1;
    }
    if i < FIRST_FONT {
        return (i == entry_of(tally)) as u64;
    }
    match tally {
        Err(_) => 0,
        Ok(_) if i < FORWARD => fonts[i - FIRST_FONT],
        Ok(lead) if i == FORWARD => lead.forward,
        Ok(lead) => lead.backward,
    }
}

// Adds what a tape adds to each entry.
fn add(report: &mut Report, tally: Result<Lead, Reason>, fonts: &[u64])
    requires { length fonts.now ≡ 120 }
    ensures { (f : Figures) → Tallied f tally fonts.now → report.new ≡ added (amount f) 0 135 report.old }
{
    for (i, entry) in report.iter_mut().enumerate() {
        *entry = entry.wrapping_add(amount_of(tally, fonts, i));
    }
}

// Counts a tape of the machine with so many fonts, 4 or 8, in the lent report, which starts as 135 zeros.
pub fn count_tape(tape: &[u8], machine: u32, report: &mut Report) -> Answer
    ensures { (outcome_of result ≡ report_outcome report.old) × (report.new ≡ counted_in report.old tape.now machine) }
{
    if MAX_TAPES <= report[0] {
        return Err(Reason::ReportFull.at(0));
    }
    let mut fonts = [0u64; font::FONTS as usize];
    let tally = figures::tally_tape(tape, machine, &mut fonts);
    add(report, tally, &fonts);
    Ok(0)
}
