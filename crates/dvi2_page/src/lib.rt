// One command of a page of the second edition (document 02, "The second edition of DVI"): whether it may come, and what it leads to.
#![tactic(auto)]

pub mod fonts;
pub mod matching;

ghost use Rattle.std.specs.Prelude.{◌≡◌, List, ◌+◌, ◌≤◌, ◌<◌, length, get_or};
ghost use Rattle.galley_file.specs.declared.item.Item.{Item};
ghost use Rattle.dvi2_state.specs.Page.{SoundPage, StepIs, StepsAs};
ghost use Rattle.dvi2_page.specs.Fonts.{Known, StepsWith};

use dvi2::opcode;
use dvi2_moves::moves;
use dvi2_state::page_state::{PageState, Stepped, Wrong};
use extents::fonts::Fonts;
use galley_file::item;

// A command of a font.
fn font_step(s: &[u8], at: usize, h: PageState, used: Fonts) -> Result<Stepped, Wrong>
    requires { ((at < length s.now) × (161 ≤ get_or s.now at 0)) × SoundPage h }
    ensures { StepsWith s.now at h used result }
{
    let op = s[at];
    if op < opcode::FNTNUM0 {
        return Err(Wrong::Bad);
    }
    if op < opcode::FNT1 {
        return fonts::select_low(s, at, h, used);
    }
    if op == opcode::FNT1 {
        return fonts::select_high(s, at, h, used);
    }
    if op == opcode::FNTDEF1 {
        return fonts::define(s, at, h, used);
    }
    Err(Wrong::Bad)
}

// A move, or put1.
fn move_step(s: &[u8], at: usize, h: PageState) -> Result<Stepped, Wrong>
    requires { ((at < length s.now) × ((get_or s.now at 0 ≡ 140 → ⊥) × (get_or s.now at 0 ≤ 160))) × SoundPage h }
    ensures { StepsAs s.now at h result }
{
    let op = s[at];
    if op == opcode::PUT1 {
        return moves::put(s, at, h);
    }
    if op < opcode::RIGHT1 {
        return Err(Wrong::Bad);
    }
    if op <= opcode::RIGHT4 {
        return moves::right(s, at, (op - opcode::RIGHT1) as usize + 1, h);
    }
    if op < opcode::DOWN1 {
        return Err(Wrong::Bad);
    }
    moves::down(s, at, (op - opcode::DOWN1) as usize + 1, h)
}

// The command at `at`, after `count` items with these fonts.
pub fn step(s: &[u8], at: usize, h: PageState, count: usize, used: Fonts) -> Result<Stepped, Wrong>
    requires { (at < length s.now) × SoundPage h }
    ensures { (is : List Item) → length is ≡ count → Known used.low used.high is → StepIs s.now at h is result }
{
    let op = s[at];
    if op == opcode::EOP {
        return if h.stage.is_ready() {
            Ok(Stepped::End)
        } else {
            Err(Wrong::Bad)
        };
    }
    if item::MAX_ITEMS <= count {
        return Err(Wrong::Bad);
    }
    if op <= opcode::DOWN4 {
        return move_step(s, at, h);
    }
    font_step(s, at, h, used)
}
