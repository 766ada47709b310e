// A piece of an open running tape: two passes over it, the first for what it comes to, the second to write its fields.
#![tactic(auto)]

ghost use Rattle.std.specs.Prelude.{◌≡◌, true, ◌+◌, ◌≤◌, length};
ghost use Rattle.std.proofs.lemmas.List.Edits.{sets};
ghost use Rattle.galley_file.specs.declared.form.Form.TheVariants.{New};
ghost use Rattle.galley_file.specs.Item.{characters_of};
ghost use Rattle.galley_file.specs.Galley.{fields};
ghost use Rattle.extents.specs.Extents.{with_characters};
ghost use Rattle.tape.specs.Tape.{max_tape, run};
ghost use Rattle.running.specs.Answer.{outcome_in};
ghost use Rattle.running.specs.Running.{is_sound, feed_within, feed_open, feed_of, Leaves};

use extents::Extents;
use galley_file::form;
use octets::refusal::Reason;
use running::{Phase, Refused, Reply, Running};

// Writes the fields of a piece, which take `needed` bytes, and gives the extents with its characters.
fn put_piece(tape: Running, piece: &[u8], out: &mut [u8], needed: usize) -> Extents
    requires tape_value { (is_sound tape ≡ true) × (tape.total + length piece.now ≤ max_tape) }
    requires needed_value { (needed ≡ length (fields New (run tape.state tape.total piece.now).items)) × (needed ≤ length out.old) }
    ensures { (result ≡ with_characters tape.extents (characters_of (run tape.state tape.total piece.now).items)) × (out.new ≡ sets out.old 0 (fields New (run tape.state tape.total piece.now).items)) }
{
    tape::pass(tape.state, tape.total, piece, out, true);
    extents::with_fields(tape.extents, &out[..needed])
}

// A piece within the limit: where it has no fault and there is room, its fields are written.
fn feed_within(tape: Running, piece: &[u8], out: &mut [u8]) -> Reply
    requires { (is_sound tape ≡ true) × (tape.total + length piece.now ≤ max_tape) }
    ensures { Leaves (outcome_in result.answer) result.tape (feed_within tape piece.now) out.old out.new }
{
    let r = tape::pass(tape.state, tape.total, piece, out, false);
    let state = match r.ending {
        Ok(state) => state,
        Err(refusal) => return tape.failing(Refused::Now(refusal)),
    };
    let needed = form::NEW_FIELD * r.count + r.cuts;
    if out.len() < needed {
        return tape.refusing(Refused::Now(Reason::NoGalleyRoom.at(needed)));
    }
    Reply {
        tape: Running {
            phase: Phase::Open,
            state,
            total: tape.total + piece.len(),
            count: tape.count + r.count,
            extents: put_piece(tape, piece, out, needed),
        },
        answer: Ok(needed),
    }
}

// A piece of an open running tape.
fn feed_open(tape: Running, piece: &[u8], out: &mut [u8]) -> Reply
    ensures { Leaves (outcome_in result.answer) result.tape (feed_open tape piece.now) out.old out.new }
{
    if !tape.is_sound() {
        return tape.refusing(Refused::Now(Reason::NotStarted.at(0)));
    }
    if tape::MAX_TAPE - tape.total < piece.len() {
        return tape.failing(Refused::Now(Reason::TapeTooLong.at(0)));
    }
    feed_within(tape, piece, out)
}

// A piece of the tape: its fields go into the lent buffer, without an End.
pub fn fed(tape: Running, piece: &[u8], out: &mut [u8]) -> Reply
    ensures { Leaves (outcome_in result.answer) result.tape (feed_of tape piece.now) out.old out.new }
{
    match tape.phase {
        Phase::AtRest => tape.refusing(Refused::Now(Reason::NotStarted.at(0))),
        Phase::Failed(number, place) => tape.refusing(Refused::Again(number, place)),
        Phase::Open => feed_open(tape, piece, out),
    }
}
