// The moves of a page, and put1.
ghost use Rattle.std.specs.Prelude.{true, ◌≡◌, ◌+◌, ◌≤◌, ◌<◌, length, get_or};
ghost use Rattle.dvi.specs.FontOrNone.{font_or_none};
ghost use Rattle.dvi2_reading.specs.PageReading as Page;
ghost use Rattle.dvi2_reading.specs.Reading as R;
ghost use Rattle.dvi2_state.specs.Page.{StepsAs, MayMove};

use dvi2_commands::command;
use dvi2_state::begin;
use dvi2_state::page_state::{PageState, Stage, Stepped, Wrong};
use galley_file::character;
use measure::{Quanta, Units};
use octets::number;

// The first and the last x of any size.
const FIRST_X: i64 = measure::FIRST_X.0 as i64;

const LAST_X: i64 = measure::CARRIAGE_END.0 as i64;

// Three times the greatest height.
const LOWEST: i64 = measure::PER_QUANTUM as i64 * measure::HEIGHT_END.0 as i64;

// Whether a character of the page's font may stand at t.
fn valid_at(h: PageState, t: i64) -> bool
    ensures { result ≡ Page.valid_in (font_or_none h.font) t }
{
    FIRST_X <= t && t <= LAST_X && h.valid_in(Units(t as i32))
}

// Whether t is three times a height.
fn is_down(t: i64) -> bool
    ensures { result ≡ Page.is_downward t }
{
    0 <= t && t <= LOWEST && (t as u64) % 3 == 0
}

// The height of which t is three times.
fn height_at(t: i64) -> Quanta
    requires { Page.is_downward t ≡ true }
    ensures { result.0 ≡ R.height_of t }
{
    Quanta((t as u64 / 3) as i32)
}

// `right` and `down` stay two functions: they differ in the stages and the test before the number, in the places that are searched and in the measure that moves, so that
// one function of both would take four closures and be no plainer.

// A move right of k bytes.
pub fn right(s: &[u8], at: usize, k: usize, h: PageState) -> Result<Stepped, Wrong>
    requires { MayMove s.now at (142 + k) k h }
    ensures { StepsAs s.now at h result }
{
    if !h.stage.before_right() {
        return Err(Wrong::Bad);
    }
    if s.len() - at <= k {
        return Err(if begin::may_begin_right(s, at, h) {
            Wrong::Short
        } else {
            Wrong::Bad
        });
    }
    let m = number::signed_at(s, at + 1, k);
    if command::parameter_width(m) != k || m == 0 {
        return Err(Wrong::Bad);
    }
    let t = measure::moved(h.x.0, m);
    if !valid_at(h, t) {
        return Err(Wrong::Bad);
    }
    Ok(Stepped::Go(
        PageState {
            stage: Stage::Moved,
            x: Units(t as i32),
            ..h
        },
        k,
    ))
}

// A move down of k bytes.
pub fn down(s: &[u8], at: usize, k: usize, h: PageState) -> Result<Stepped, Wrong>
    requires { MayMove s.now at (156 + k) k h }
    ensures { StepsAs s.now at h result }
{
    if !h.stage.before_down() || !h.valid_in(h.x) {
        return Err(Wrong::Bad);
    }
    if s.len() - at <= k {
        return Err(if begin::may_begin_down(s, at, h) {
            Wrong::Short
        } else {
            Wrong::Bad
        });
    }
    let m = number::signed_at(s, at + 1, k);
    if command::parameter_width(m) != k || m == 0 {
        return Err(Wrong::Bad);
    }
    let t = measure::moved(measure::PER_QUANTUM * h.height.0, m);
    if !is_down(t) {
        return Err(Wrong::Bad);
    }
    Ok(Stepped::Go(
        PageState {
            stage: Stage::Lowered,
            height: height_at(t),
            ..h
        },
        k,
    ))
}

// put1.
pub fn put(s: &[u8], at: usize, h: PageState) -> Result<Stepped, Wrong>
    requires { (at < length s.now) × (get_or s.now at 0 ≡ 133) }
    ensures { StepsAs s.now at h result }
{
    if !h.stage.before_put() || !h.valid_in(h.x) {
        return Err(Wrong::Bad);
    }
    if s.len() - at < 2 {
        return Err(Wrong::Short);
    }
    let code = s[at + 1];
    if code < 1 || character::LAST_CODE < code {
        return Err(Wrong::Bad);
    }
    Ok(Stepped::Put(code))
}
