// The start and the close of a running tape that the caller keeps (document 02, "From the tape drive"): thin functions over those that take it by value.
#![tactic(auto)]

ghost use Rattle.std.specs.Prelude.{◌≡◌};
ghost use Rattle.octets.specs.Answer.{outcome};
ghost use Rattle.running.specs.Answer.{outcome_in};
ghost use Rattle.running.specs.Running.{start_of, close_of, Leaves};

use running::{Answer, Running};

// Starts the running tape anew, on the machine with so many fonts, 4 or 8.
pub fn start(tape: &mut Running, machine: u32) -> Answer
    ensures { (outcome_in result ≡ outcome (start_of tape.old machine).result) × (tape.new ≡ (start_of tape.old machine).tape) }
{
    let reply = tape.started(machine);
    *tape = reply.tape;
    reply.answer
}

// The end of the tape: End goes into the lent buffer.
pub fn close(tape: &mut Running, out: &mut [u8]) -> Answer
    ensures { Leaves (outcome_in result) tape.new (close_of tape.old) out.old out.new }
{
    let reply = tape.closed(out);
    *tape = reply.tape;
    reply.answer
}
