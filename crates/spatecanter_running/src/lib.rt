// The running tape for C and Rust callers: it lies in an array of words that the caller keeps, and lends to each call.
#![tactic(auto)]

pub mod words;

ghost use Rattle.std.specs.Prelude.{◌≡◌};
ghost use Rattle.octets.specs.Answer.{numbers_of, outcome};
ghost use Rattle.running.specs.Running.{new_tape, start_of, feed_of, close_of};
ghost use Rattle.spatecanter_running.specs.Words.{tape_in, reach_of, font_marks, Holds, LeavesWords};

use octets::refusal;
use running::Running;
use words::TapeWords;

// A running tape before any start.
#[unsafe(no_mangle)]
pub extern "C" fn sp_new_tape(tape: &mut TapeWords)
    ensures { Holds tape.new new_tape }
{
    *tape = words::words_of(Running::new());
}

// Starts a running tape anew, on the machine with so many fonts, 4 or 8.
#[unsafe(no_mangle)]
pub extern "C" fn sp_start(tape: &mut TapeWords, machine: u32, answer: &mut [usize; 3])
    ensures { (answer.new ≡ numbers_of (outcome (start_of (tape_in tape.old) machine).result)) × Holds tape.new (start_of (tape_in tape.old) machine).tape }
{
    let reply = words::tape_in(*tape).started(machine);
    *tape = words::words_of(reply.tape);
    *answer = refusal::numbers(reply.answer);
}

// A piece of the tape: its fields go into the lent buffer, without an End.
#[unsafe(no_mangle)]
pub extern "C" fn sp_feed(
    tape: &mut TapeWords,
    piece: &[u8],
    out: &mut [u8],
    answer: &mut [usize; 3],
)
    ensures { LeavesWords answer.new tape.new (feed_of (tape_in tape.old) piece.now) out.old out.new }
{
    let reply = running_piece::fed(words::tape_in(*tape), piece, out);
    *tape = words::words_of(reply.tape);
    *answer = refusal::numbers(reply.answer);
}

// The end of the tape: End goes into the lent buffer.
#[unsafe(no_mangle)]
pub extern "C" fn sp_close(tape: &mut TapeWords, out: &mut [u8], answer: &mut [usize; 3])
    ensures { LeavesWords answer.new tape.new (close_of (tape_in tape.old)) out.old out.new }
{
    let reply = words::tape_in(*tape).closed(out);
    *tape = words::words_of(reply.tape);
    *answer = refusal::numbers(reply.answer);
}

// Farthest x and greatest height of the characters gone out since the start, and the marks of their fonts.
#[unsafe(no_mangle)]
pub extern "C" fn sp_extents(tape: &TapeWords, reach: &mut [i32; 2], fonts: &mut [u64; 2])
    ensures { (reach.new ≡ reach_of (tape_in tape.now).extents) × (fonts.new ≡ font_marks (tape_in tape.now).extents) }
{
    let e = words::extents_in(*tape);
    *reach = [e.x.0, e.height.0];
    *fonts = [e.fonts.low, e.fonts.high];
}
