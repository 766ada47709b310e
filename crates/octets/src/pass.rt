// An operation by two passes over an input: the first counts, the second writes.
ghost use Rattle.std.specs.Prelude.{◌≡◌, true, length};
ghost use Rattle.octets.specs.Answer.{Result as Made, outcome_by, outcome_of, number_in, if_room, Gives};
ghost use Rattle.octets.specs.Pass.{Roomy, Passed, decided};

use crate::refusal::{Answer, Numbered, Reason};

// The input of an operation, and what one pass over it does: it counts the bytes of the result, and writes them, if writing.
pub trait TwoPass {
    // What the operation makes of this input, for a buffer with room.
    ghost made: { Self → Made };

    fn pass(&self, out: &mut [u8], writing: bool) -> Answer
        requires { writing ≡ true → Roomy (made self.now) (length out.old) }
        ensures { Passed (made self.now) writing out.old result out.new };
}

// What the first pass and the room decide: a refusal is the answer, and so is too little room.
pub fn answered<E: Numbered>(
    found: Result<usize, E>,
    room: usize,
    short: E::Cause,
) -> Result<usize, E>
    ensures { let told = outcome_by (λ n. n) E.number_is E.place_is in told result ≡ decided (E.cause_number short) room (told found) }
{
    let needed = found?;
    if room < needed {
        return Err(E::made_at(short, needed));
    }
    Ok(needed)
}

// Both passes. Only the second writes, where the first found no fault and there is room.
pub fn in_two_passes<P: TwoPass>(input: &P, out: &mut [u8], short: Reason) -> Answer
    ensures { Gives (outcome_of result) (λ room. if_room (number_in short) room (P.made input.now)) out.old out.new }
{
    let found = input.pass(out, false);
    answered(found, out.len(), short)?;
    input.pass(out, true)
}
