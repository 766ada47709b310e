// The commonest codes of a C/A/T tape without the whole step: stretches, leads, and the codes that turn a mode or set a size, one after another.
#![tactic(auto)]

pub mod turn;

ghost use Rattle.std.specs.Prelude.{◌≡◌, ◌≤◌};
ghost use Rattle.typesetter.specs.Sound.{Sound};
ghost use Rattle.tape_stretch.specs.Further.{Further};
ghost use Rattle.tape_quick.specs.Turn.{Leads};

use measure::Quanta;
use tape_stretch::derived;
use tape_stretch::derived::Derived;
use typesetter::code;
use typesetter::machine::State;

// Where a run of the quick ways ends: the place on the tape, the state, and the number of characters.
#[derive(Clone, Copy)]
pub struct RunEnd {
    pub next: usize,
    pub state: State,
    pub count: usize,
}

// The height after b, where b is a lead of a machine that is ready; None is every other code and every refusal.
pub fn height_after(s: State, b: u8) -> Option<Quanta>
    ensures { Leads s b result }
{
    if b >> 5 == 3 && derived::is_ready(s) {
        s.height.lead(code::lead_size(b), s.modes.lead_back)
    } else {
        None
    }
}

// Runs from `from` on, after `before` characters and so many bytes of cuts, up to a code that needs the whole step; writes the characters' fields, if writing.
pub fn quick_run(
    writing: bool,
    first: State,
    tape: &[u8],
    from: usize,
    before: usize,
    cuts: usize,
    out: &mut [u8],
) -> RunEnd
    requires { (Sound first) × (before ≤ from) }
    ensures { Further writing tape.now out.old first before cuts from result.state result.count result.next out.new }
{
    let mut s = first;
    let mut d = Derived::of(first);
    let mut count = before;
    let mut i = from;
    // A turn stands in `figures::quick_tally` too: one function for both cost reading 6.6 percent (docs/DECISIONS.md, 85).
    // It takes a stretch of codes, however many, so the place is no counter.
    loop {
        let r = tape_stretch::quick_stretch(writing, s, d, tape, i, count, cuts, out);
        s.carriage = r.carriage;
        count = r.count;
        i = r.next;
        let Some(&b) = tape.get(i) else {
            break;
        };
        if turn::takes_turn(s, b) {
            s.modes = turn::modes_after(s.modes, b);
            s.size = turn::size_after(s.size, b);
            d = Derived::of(s);
        } else if let Some(height) = height_after(s, b) {
            s.height = height;
        } else {
            break;
        }
        i += 1;
    }
    RunEnd {
        next: i,
        state: s,
        count,
    }
}
