// C/A/T phototypesetter tapes (source 000, document 01), read into galleys.
#![tactic(auto)]

ghost use Rattle.std.specs.Prelude.{◌≡◌, true, ◌+◌, ◌*◌, ◌≤◌, length};
ghost use Rattle.octets.specs.Answer.{outcome_of, Gives};
ghost use Rattle.galley_file.specs.declared.form.Form.TheVariants.{New};
ghost use Rattle.galley_file.specs.Item.{item_size};
ghost use Rattle.galley_file.specs.Galley.{fields};
ghost use Rattle.typesetter.specs.Sound.{Sound};
ghost use Rattle.tape.specs.Tape.{max_tape, run, read_result, tape_result};
ghost use Rattle.tape_stretch.specs.Further.{put_at};
ghost use Rattle.tape.specs.Pass.{Passed};

use galley_file::form::Form;
use galley_file::item::Item;
use galley_file::{form, item};
use octets::field;
use octets::refusal::{Answer, Reason, Refusal};
use typesetter::code::Machine;
use typesetter::machine::{Effect, State};

pub const MAX_TAPE: usize = 1_048_576;

// What a pass finds: the number of characters, the bytes of the cuts' fields, and the state that it ends in or the refusal.
#[derive(Clone, Copy)]
pub struct Reading {
    pub count: usize,
    pub cuts: usize,
    pub ending: Result<State, Refusal>,
}

// Writes an item's field after `count` characters and so many bytes of cuts, if writing.
fn put_after(writing: bool, out: &mut [u8], count: usize, cuts: usize, i: Item)
    requires count_le_max_tape { (count ≤ max_tape) × (cuts ≤ 3 * max_tape) }
    requires i_in_bounds { writing ≡ true → 11 * count + cuts + item_size New i ≤ length out.old }
    ensures { out.new ≡ put_at writing count cuts i out.old }
{
    if writing {
        item::put_item(Form::New, out, form::NEW_FIELD * count + cuts, i);
    }
}

// One pass over the bytes of a tape from the place `at`, on a machine in the state `first`. It writes the items' fields, if writing.
pub fn pass(first: State, at: usize, tape: &[u8], out: &mut [u8], writing: bool) -> Reading
    requires sound { (Sound first) × (at + length tape.now ≤ max_tape) }
    requires tape_in_bounds { writing ≡ true → length (fields New (run first at tape.now).items) ≤ length out.old }
    ensures { Passed (run first at tape.now) writing out.old result out.new }
{
    let mut s = first;
    let mut count: usize = 0;
    let mut cuts: usize = 0;
    let mut i: usize = 0;
    // An index, and no iterator: a turn takes the codes of the quick ways, however many, and one more.
    loop {
        let r = tape_quick::quick_run(writing, s, tape, i, count, cuts, out);
        s = r.state;
        count = r.count;
        i = r.next;
        let Some(&b) = tape.get(i) else {
            return Reading {
                count,
                cuts,
                ending: Ok(s),
            };
        };
        match tape_step::step(s, b) {
            Ok(Effect::Moved(next)) => {
                s = next;
                i += 1;
            }
            Ok(Effect::Flashed(c)) => {
                put_after(writing, out, count, cuts, Item::Placed(c));
                count += 1;
                i += 1;
            }
            Ok(Effect::PageEnded(next)) => {
                put_after(writing, out, count, cuts, Item::Cut);
                cuts += item::CUT_FIELD;
                s = next;
                i += 1;
            }
            Err(reason) => {
                return Reading {
                    count,
                    cuts,
                    ending: Err(reason.at(at + i)),
                };
            }
        }
    }
}

// Reads a tape within the limit, on a machine in the state `first`.
fn read_from(first: State, tape: &[u8], galley: &mut [u8]) -> Answer
    requires { (Sound first) × (length tape.now ≤ max_tape) }
    ensures { Gives (outcome_of result) (read_result first tape.now) galley.old galley.new }
{
    let r = pass(first, 0, tape, galley, false);
    let s = r.ending?;
    if s.cut {
        return Err(Reason::AfterCut.at(tape.len()));
    }
    if !s.stopped {
        return Err(Reason::NoStop.at(tape.len()));
    }
    let start = form::NEW_FIELD * r.count + r.cuts;
    let needed = start + field::END_FIELD;
    if galley.len() < needed {
        return Err(Reason::NoGalleyRoom.at(needed));
    }
    pass(first, 0, tape, galley, true);
    field::put_end(galley, start, r.count as u32);
    Ok(needed)
}

// Reads a tape of the machine with so many fonts, 4 or 8, into the lent galley buffer.
pub fn read_tape(tape: &[u8], machine: u32, galley: &mut [u8]) -> Answer
    ensures { Gives (outcome_of result) (tape_result tape.now machine) galley.old galley.new }
{
    if MAX_TAPE < tape.len() {
        return Err(Reason::TapeTooLong.at(0));
    }
    let machine = Machine::try_from(machine).map_err(|reason| reason.at(0))?;
    read_from(State::at_start(machine), tape, galley)
}
