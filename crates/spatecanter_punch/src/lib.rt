// Punching a tape, for C and Rust callers: the answer goes into an array that the caller lends.
#![tactic(auto)]

ghost use Rattle.punch.specs.Punch.{PunchesNumbers};

use octets::refusal;

// Punches the tape of a galley, for the machine with 8 fonts.
#[unsafe(no_mangle)]
pub extern "C" fn sp_punch_tape(galley: &[u8], tape: &mut [u8], answer: &mut [usize; 3])
    ensures { PunchesNumbers answer.new galley.now tape.old tape.new }
{
    *answer = refusal::numbers(punch::punch_tape(galley, tape));
}
