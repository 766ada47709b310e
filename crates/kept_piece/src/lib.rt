// A piece fed to a running tape that the caller keeps (document 02, "From the tape drive"): a thin function over the one that takes it by value.
#![tactic(auto)]

ghost use Rattle.running.specs.Answer.{outcome_in};
ghost use Rattle.running.specs.Running.{feed_of, Leaves};

use running::{Answer, Running};

// A piece of the tape: its fields go into the lent buffer, without an End.
pub fn feed(tape: &mut Running, piece: &[u8], out: &mut [u8]) -> Answer
    ensures { Leaves (outcome_in result) tape.new (feed_of tape.old piece.now) out.old out.new }
{
    let reply = running_piece::fed(*tape, piece, out);
    *tape = reply.tape;
    reply.answer
}
