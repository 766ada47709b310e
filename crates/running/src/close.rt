// The close of an open running tape.
ghost use Rattle.std.specs.Prelude.{◌≡◌, Ok};
ghost use Rattle.running.specs.Answer.{outcome_in};
ghost use Rattle.running.specs.Running.{at_rest_of, close_open, Leaves};

use crate::{Phase, Refused, Reply, Running};
use octets::field;
use octets::refusal::Reason;

// The reply of an accepted closing.
fn end(tape: Running) -> Reply
    ensures { result ≡ record { tape = at_rest_of tape; answer = Ok 7 } }
{
    Reply {
        tape: Running {
            phase: Phase::AtRest,
            ..tape
        },
        answer: Ok(field::END_FIELD),
    }
}

// The close of an open running tape.
pub fn close_open(tape: Running, out: &mut [u8]) -> Reply
    ensures { Leaves (outcome_in result.answer) result.tape (close_open tape) out.old out.new }
{
    if !tape.is_sound() {
        return tape.refusing(Refused::Now(Reason::NotStarted.at(0)));
    }
    if tape.state.cut {
        return tape.failing(Refused::Now(Reason::AfterCut.at(tape.total)));
    }
    if !tape.state.stopped {
        return tape.failing(Refused::Now(Reason::NoStop.at(tape.total)));
    }
    if out.len() < field::END_FIELD {
        return tape.refusing(Refused::Now(Reason::NoGalleyRoom.at(field::END_FIELD)));
    }
    field::put_end(out, 0, tape.count as u32);
    end(tape)
}
