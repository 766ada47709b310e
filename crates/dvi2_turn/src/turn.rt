// One turn: a command of a page, or what stands between two pages and after the last.
ghost use Rattle.std.specs.Prelude.{◌≡◌, true, List, [], ◌∷◌, ◌++◌, ℕ, ◌≤◌, ◌<◌, length, get_or};
ghost use Rattle.std.proofs.Math.Option.{some};
ghost use Rattle.galley_file.specs.declared.item.Item.{Item as ItemOf};
ghost use Rattle.galley_file.specs.declared.item.Item.TheVariants.{Cut};
ghost use Rattle.galley_file.specs.Galley.{max_items};
ghost use Rattle.dvi.specs.FontOrNone.{font_or_none};
ghost use Rattle.dvi2_reading.specs.PageReading.{is_downward};
ghost use Rattle.dvi2_reading.specs.Reading.{character_of, in_page, between, new_page_state};
ghost use Rattle.dvi2_reading.specs.Standing.{Standing};
ghost use Rattle.dvi2_state.specs.Page.{page_state_of, page_position, SoundPage};
ghost use Rattle.dvi2_turn.specs.Tally.{TallyIs, TallyRanged};
ghost use Rattle.dvi2_close.specs.Reading.{ReadsTo, Ended};
ghost use Rattle.dvi2_turn.specs.Turn.{Turning, Turned};

use crate::tally::Tally;
use dvi::font_byte;
use dvi2::opcode;
use dvi2_close::expect::NotOurs;
use dvi2_close::{close, expect};
use dvi2_state::page_state::{PageState, Stage, Stepped, Wrong};
use galley_file::character::Character;
use galley_file::item;
use galley_file::item::Item;
use measure::{Quanta, Units};

#[derive(Clone, Copy)]
pub enum Turn {
    // The file is whole.
    Whole,
    // The state and the place after a command.
    On(PageState, usize),
    // The same after an item.
    Set(Item, PageState, usize),
}

// At the start of a page.
pub fn new_page() -> PageState
    ensures { SoundPage result × ((is : List ItemOf) → page_state_of is result ≡ new_page_state is) }
{
    PageState {
        stage: Stage::Ready,
        font: font_byte::NO_FONT,
        x: Units(0),
        height: Quanta(0),
    }
}

// The character that is put at the place of h.
fn character(h: PageState, code: u8) -> Character
    requires { is_downward (page_position h).y ≡ true }
    ensures { (f : ℕ) → font_or_none h.font ≡ some f → result ≡ character_of (page_position h) code }
{
    Character {
        x: h.x,
        height: h.height,
        font: h.font,
        code,
    }
}

// post, and the rest of the file.
fn to_post(dvi: &[u8], at: usize, t: Tally) -> Result<usize, NotOurs>
    requires { ((at < length dvi.now) × (get_or dvi.now at 0 ≡ 248)) × ((length dvi.now ≤ 67108864) × TallyRanged t) }
    ensures { (is : List ItemOf) → TallyIs t is → Standing dvi.now (between is) at → Ended dvi.now is result }
{
    let e = dvi2_frame::post(t.bop as u32, t.extents, t.cuts as u32 + 1);
    let to = expect::expect(dvi, at, &e)?;
    close::close(dvi, at, to, t.extents.fonts)
}

// The bop of a further page.
fn to_page(dvi: &[u8], at: usize, t: Tally) -> Result<usize, NotOurs>
    requires { ((at < length dvi.now) × (get_or dvi.now at 0 ≡ 248 → ⊥)) × TallyRanged t }
    ensures { (is : List ItemOf) → TallyIs t is → length is < max_items → Standing dvi.now (between is) at → ReadsTo dvi.now (in_page (new_page_state (is ++ (Cut ∷ [])))) result }
{
    let e = dvi2_frame::bop(t.cuts as u32 + 2, t.bop as i32);
    expect::expect(dvi, at, &e)
}

// After eop.
fn ended(dvi: &[u8], at: usize, t: Tally) -> Result<Turn, NotOurs>
    requires { (length dvi.now ≤ 67108864) × TallyRanged t }
    ensures { (is : List ItemOf) → TallyIs t is → Standing dvi.now (between is) at → Turned dvi.now is at result }
{
    if dvi.len() <= at {
        return Err(NotOurs { place: dvi.len() });
    }
    if dvi[at] == opcode::POST {
        to_post(dvi, at, t)?;
        return Ok(Turn::Whole);
    }
    if item::MAX_ITEMS <= t.characters + t.cuts {
        return Err(NotOurs { place: at });
    }
    let to = to_page(dvi, at, t)?;
    Ok(Turn::Set(Item::Cut, new_page(), to))
}

// The command at `at`, and the bop or the rest of the file after an eop.
pub fn take_turn(dvi: &[u8], at: usize, h: PageState, t: Tally) -> Result<Turn, NotOurs>
    requires { ((at < length dvi.now) × (length dvi.now ≤ 67108864)) × Turning dvi.now at h t }
    ensures { (is : List ItemOf) → TallyIs t is → Standing dvi.now (in_page (page_state_of is h)) at → Turned dvi.now is at result }
{
    match dvi2_page::step(dvi, at, h, t.characters + t.cuts, t.extents.fonts) {
        Ok(Stepped::End) => ended(dvi, at + 1, t),
        Ok(Stepped::Put(code)) => {
            let c = character(h, code);
            Ok(Turn::Set(
                Item::Placed(c),
                PageState {
                    stage: Stage::Ready,
                    ..h
                },
                at + 2,
            ))
        }
        Ok(Stepped::Go(g, n)) => Ok(Turn::On(g, at + 1 + n)),
        Err(Wrong::Bad) => Err(NotOurs { place: at }),
        Err(Wrong::Short) => Err(NotOurs { place: dvi.len() }),
    }
}
