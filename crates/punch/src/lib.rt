// Punching a tape from a galley, for the 8-font machine (document 02, "Punching a tape").
#![tactic(auto)]

ghost use Rattle.std.specs.Prelude.{◌≡◌, true, ◌+◌, ◌≤◌, ◌<◌, length};
ghost use Rattle.octets.specs.Answer.{outcome_of, Gives};
ghost use Rattle.octets.specs.Write.{Put};
ghost use Rattle.galley_file.specs.declared.form.Form.TheVariants.{New};
ghost use Rattle.galley_file.specs.Galley.{items_of};
ghost use Rattle.punch_codes.specs.Codes.{begun};
ghost use Rattle.punch.specs.Punch.{items_codes, punched, punch_result, Punches};

use galley_check::galley::CheckedGalley;
use octets::refusal::{Answer, Reason};
use punch_codes::{item, put, setting};

const STOP: u8 = 0x49;

// The bytes of initialize and an escape of 16.
const START: usize = 2;

// The codes of a galley's items, after those of the start.
fn put_items(writing: bool, galley: CheckedGalley<'_>, out: &mut [u8]) -> usize
    requires { writing ≡ true → 2 + length (items_codes begun (items_of New galley.bytes.now)) ≤ length out.old }
    ensures { (Put writing out.old 2 (items_codes begun (items_of New galley.entry.bytes.now)) out.new result) × (result < 18446744073709551615) }
{
    let mut next = START;
    let mut s = setting::at_begin();
    for i in galley.items() {
        let t = setting::state_after(s, i);
        next = item::put_item(writing, out, next, s, t, i);
        s = t;
    }
    next
}

// One pass over a galley: writes its tape, if writing, and gives the tape's length.
fn pass(writing: bool, galley: CheckedGalley<'_>, out: &mut [u8]) -> usize
    requires { writing ≡ true → length (punched (items_of New galley.bytes.now)) ≤ length out.old }
    ensures { Put writing out.old 0 (punched (items_of New galley.entry.bytes.now)) out.new result }
{
    item::put_start(writing, out, 0);
    let next = put_items(writing, galley, out);
    put::put_code(writing, out, next, STOP)
}

// Punches the tape of a galley, if it is short enough and there is room.
fn punch_checked(galley: CheckedGalley<'_>, out: &mut [u8]) -> Answer
    ensures { Gives (outcome_of result) (punch_result galley.entry.bytes.now) out.old out.new }
{
    let needed = pass(false, galley, out);
    if tape::MAX_TAPE < needed {
        return Err(Reason::PunchedTooLong.at(0));
    }
    if out.len() < needed {
        return Err(Reason::NoTapeRoom.at(needed));
    }
    pass(true, galley, out);
    Ok(needed)
}

// Punches the tape of a galley into the lent buffer. Reading that tape gives the galley.
pub fn punch_tape(galley: &[u8], tape: &mut [u8]) -> Answer
    ensures { Punches (outcome_of result) galley.now tape.old tape.new }
{
    punch_checked(CheckedGalley::of(galley)?, tape)
}
