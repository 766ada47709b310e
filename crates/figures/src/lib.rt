// A tape counted: whether it is accepted, its characters by font number and its lead, by the machine's own rules. No galley is written.
#![tactic(auto)]

ghost use Rattle.std.specs.Prelude.{◌≡◌, ◌<◌, ◌≤◌, length, replicate, slice_index, slice_set};
ghost use Rattle.typesetter.specs.Code.{code_of};
ghost use Rattle.typesetter.specs.Sound.{Sound};
ghost use Rattle.tape.specs.Tape.{max_tape};
ghost use Rattle.figures.specs.Figures.{taken, lead_in, forward_of, backward_of, figures_of, sum64};
ghost use Rattle.figures.specs.Counting.{figures_from, tally_at, CountsOn, Tallied};

use octets::refusal::Reason;
use tape_quick::turn;
use tape_stretch::derived::Derived;
use typesetter::code;
use typesetter::code::Machine;
use typesetter::machine::{Effect, State};

// How far the paper is led, in each direction.
#[derive(Clone, Copy, PartialEq, Eq)]
pub struct Lead {
    pub forward: u64,
    pub backward: u64,
}

// Where a run of the quick ways ends: the place on the tape, the state, and the lead so far.
#[derive(Clone, Copy)]
pub struct RunEnd {
    pub next: usize,
    pub state: State,
    pub lead: Lead,
}

// How far a code leads.
fn lead_by(b: u8) -> u8
    ensures { (machine : Machine) → result ≡ lead_in (code_of machine b) }
{
    if b >> 5 == 3 { code::lead_size(b) } else { 0 }
}

impl Lead {
    // With the lead of a code that moves a machine in the state s.
    fn after(self, s: State, b: u8) -> Lead
        ensures forward { result.forward ≡ sum64 self.forward (forward_of (taken s b)) }
        ensures backward { result.backward ≡ sum64 self.backward (backward_of (taken s b)) }
    {
        let by = lead_by(b) as u64;
        let (forward, backward) = if s.modes.lead_back { (0, by) } else { (by, 0) };
        Lead {
            forward: self.forward.wrapping_add(forward),
            backward: self.backward.wrapping_add(backward),
        }
    }
}

// So many characters more of a font number.
fn add_at(fonts: &mut [u64], font: usize, n: u64)
    requires { font < length fonts.old }
    ensures { fonts.new ≡ slice_set fonts.old font (sum64 (slice_index fonts.old font) n) }
{
    fonts[font] = fonts[font].wrapping_add(n);
}

// Counts from `from` on, after so much lead, up to a code that needs the whole step.
fn quick_tally(first: State, tape: &[u8], from: usize, before: Lead, fonts: &mut [u64]) -> RunEnd
    requires { (Sound first) × (length fonts.old ≡ 120) }
    ensures { CountsOn tape.now fonts.old first before.forward before.backward from fonts.new result.state result.lead.forward result.lead.backward result.next }
{
    let mut s = first;
    let mut d = Derived::of(first);
    let mut lead = before;
    let mut i = from;
    // A turn stands in `tape_quick::quick_run` too: one function for both cost reading 6.6 percent (docs/DECISIONS.md, 85).
    // It takes a stretch of codes, however many, so the place is no counter.
    loop {
        let r = tape_stretch::count_stretch(s, d, tape, i, 0);
        s.carriage = r.carriage;
        add_at(fonts, d.font as usize, r.count as u64);
        i = r.next;
        let Some(&b) = tape.get(i) else {
            break;
        };
        if turn::takes_turn(s, b) {
            s.modes = turn::modes_after(s.modes, b);
            s.size = turn::size_after(s.size, b);
            d = Derived::of(s);
        } else if let Some(height) = tape_quick::height_after(s, b) {
            lead = lead.after(s, b);
            s.height = height;
        } else {
            break;
        }
        i += 1;
    }
    RunEnd {
        next: i,
        state: s,
        lead,
    }
}

// What a tape that ends in the state s is found to be.
fn ended(s: State, lead: Lead) -> Result<Lead, Reason>
    ensures { result ≡ tally_at s lead }
{
    if s.cut {
        Err(Reason::AfterCut)
    } else if s.stopped {
        Ok(lead)
    } else {
        Err(Reason::NoStop)
    }
}

// Counts a tape within the limit, on a machine in the state `first`.
fn tally_from(first: State, tape: &[u8], fonts: &mut [u64]) -> Result<Lead, Reason>
    requires { ((Sound first) × (length tape.now ≤ max_tape)) × (fonts.old ≡ replicate 120 0) }
    ensures { Tallied (figures_from first tape.now) result fonts.new }
{
    let mut s = first;
    let mut lead = Lead {
        forward: 0,
        backward: 0,
    };
    let mut i: usize = 0;
    // An index, and no iterator: a turn takes the codes of the quick ways, however many, and one more.
    loop {
        let r = quick_tally(s, tape, i, lead, fonts);
        s = r.state;
        lead = r.lead;
        i = r.next;
        let Some(&b) = tape.get(i) else {
            return ended(s, lead);
        };
        i += 1;
        match tape_step::step(s, b)? {
            Effect::Moved(next) => {
                lead = lead.after(s, b);
                s = next;
            }
            Effect::Flashed(c) => add_at(fonts, c.font as usize, 1),
            Effect::PageEnded(next) => s = next,
        }
    }
}

// Counts a tape of the machine with so many fonts: its lead, and its characters of each font number, which mean something if it is accepted.
pub fn tally_tape(tape: &[u8], machine: u32, fonts: &mut [u64]) -> Result<Lead, Reason>
    requires { fonts.old ≡ replicate 120 0 }
    ensures { Tallied (figures_of tape.now machine) result fonts.new }
{
    if tape::MAX_TAPE < tape.len() {
        return Err(Reason::TapeTooLong);
    }
    let machine = Machine::try_from(machine)?;
    tally_from(State::at_start(machine), tape, fonts)
}
