// Moves that are cut short: whether one that may come begins so.
ghost use Rattle.std.specs.Prelude.{◌≡◌, ◌*◌, ◌≤◌, ◌<◌, pos, negsuc, ◌*ℤ◌, length, drop, ◌≤ℤ◌};
ghost use Rattle.measure.specs.Place.{carriage_end, height_end};
ghost use Rattle.measure.specs.Target.{entry_x};
ghost use Rattle.dvi2.specs.Writer as W;
ghost use Rattle.dvi2_commands.specs.Position.{OnPage};
ghost use Rattle.dvi2_reading.specs.PageReading as Page;
ghost use Rattle.dvi2_reading.specs.Reading as R;
ghost use Rattle.dvi2_state.specs.Page.{page_position, right_begins, down_begins};

use crate::page_state::PageState;
use dvi2::opcode;
use dvi2_commands::command;
use measure::{Quanta, Units};
use octets::number;

// The places across, from FIRST_X to CARRIAGE_END.
const PLACES: u32 = (measure::CARRIAGE_END.0 - measure::FIRST_X.0) as u32 + 1;

// The heights, from 0 to HEIGHT_END.
const HEIGHTS: u32 = measure::HEIGHT_END.0 as u32 + 1;

// Whether s, from `at` to its end, begins the move by m with the first opcode op.
fn begins_move(s: &[u8], at: usize, op: u8, m: i32) -> bool
    requires { (at < length s.now) × (op ≤ 200) }
    ensures { result ≡ Page.begins (drop at s.now) (W.shortest op m) }
{
    let w = command::parameter_width(m);
    if s[at] as usize != op as usize + (w - 1) {
        return false;
    }
    let mut e = [0u8; 4];
    number::put_signed4(&mut e, 0, m);
    e[4 - w..].starts_with(&s[at + 1..])
}

// Whether s, from `at` to its end, begins a move right from the place of h to a place where a character of its font may stand.
fn right_begins(s: &[u8], at: usize, h: PageState, to: Units) -> bool
    requires { (at < length s.now) × (OnPage (page_position h) × ((negsuc 54 ≤ℤ to.0) × (to.0 ≤ℤ carriage_end))) }
    ensures { result ≡ right_begins (drop at s.now) (page_position h) to.0 }
{
    let m = to.0 - h.x.0;
    m != 0 && h.valid_in(to) && begins_move(s, at, opcode::RIGHT1, m)
}

// The same of any such place.
pub fn may_begin_right(s: &[u8], at: usize, h: PageState) -> bool
    requires { (at < length s.now) × OnPage (page_position h) }
    ensures { result ≡ Page.some_below R.places (λ k. right_begins (drop at s.now) (page_position h) (entry_x k)) }
{
    (0..PLACES).any(|k| right_begins(s, at, h, Units(k as i32 - measure::DOUBLE_SHIFT.0)))
}

// Whether s, from `at` to its end, begins a move down from the place of h to another height.
// It stays beside `right_begins`: another measure, three units to each quantum, and no test of the font; one function of both would take these three.
fn down_begins(s: &[u8], at: usize, h: PageState, to: Quanta) -> bool
    requires { (at < length s.now) × (OnPage (page_position h) × ((pos 0 ≤ℤ to.0) × (to.0 ≤ℤ height_end))) }
    ensures { result ≡ down_begins (drop at s.now) (page_position h) (pos 3 *ℤ to.0) }
{
    let m = measure::PER_QUANTUM * (to.0 - h.height.0);
    m != 0 && begins_move(s, at, opcode::DOWN1, m)
}

// The same of any height.
pub fn may_begin_down(s: &[u8], at: usize, h: PageState) -> bool
    requires { (at < length s.now) × OnPage (page_position h) }
    ensures { result ≡ Page.some_below R.heights (λ k. down_begins (drop at s.now) (page_position h) (pos (3 * k))) }
{
    (0..HEIGHTS).any(|k| down_begins(s, at, h, Quanta(k as i32)))
}
