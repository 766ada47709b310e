// The fonts of a page: their definitions, and the commands that select them.
ghost use Rattle.std.specs.Prelude.{◌≡◌, true, List, ℕ, ◌+◌, ◌≤◌, ◌<◌, length, get_or};
ghost use Rattle.std.proofs.Math.Option.{some};
ghost use Rattle.galley_file.specs.declared.item.Item.{Item};
ghost use Rattle.galley_file.specs.Item.{characters_of};
ghost use Rattle.dvi2.specs.Writer as W;
ghost use Rattle.dvi.specs.FontOrNone.{font_or_none};
ghost use Rattle.dvi2_reading.specs.PageReading as Page;
ghost use Rattle.dvi2_state.specs.Page.{stage_of, SoundPage};
ghost use Rattle.dvi2_page.specs.Fonts.{Known, StepsWith, chooses_high, is_free};

use crate::matching;
use dvi2::opcode;
use dvi2_commands::font;
use dvi2_state::page_state::{PageState, Stage, Stepped, Wrong};
use extents::fonts;
use extents::fonts::Fonts;

// Whether font f may be chosen on a page.
fn may_choose(h: PageState, used: Fonts, f: u8) -> bool
    requires { (g : ℕ) → font_or_none h.font ≡ some g → g < 120 }
    ensures { (is : List Item) → Known used.low used.high is → result ≡ Page.may_choose (stage_of h.stage) (characters_of is) (font_or_none h.font) f }
{
    if galley_file::font::FONTS <= f {
        return false;
    }
    match h.stage {
        Stage::Ready => f != h.font && fonts::has_font(used, f),
        Stage::Named => f == h.font,
        Stage::Chosen | Stage::Moved | Stage::Lowered => false,
    }
}

// Whether some font from 64 on may be chosen.
fn may_begin_font(h: PageState, used: Fonts) -> bool
    requires { (g : ℕ) → font_or_none h.font ≡ some g → g < 120 }
    ensures { (is : List Item) → Known used.low used.high is → result ≡ Page.some_below 120 (chooses_high (stage_of h.stage) (characters_of is) (font_or_none h.font)) }
{
    (opcode::FNTNUMS..galley_file::font::FONTS).any(|f| may_choose(h, used, f))
}

// Whether some font is not used.
fn some_free(used: Fonts) -> bool
    ensures { (is : List Item) → Known used.low used.high is → result ≡ Page.some_below 120 (is_free (characters_of is)) }
{
    (0..galley_file::font::FONTS).any(|f| !fonts::has_font(used, f))
}

// fnt_num_0 to fnt_num_63.
pub fn select_low(s: &[u8], at: usize, h: PageState, used: Fonts) -> Result<Stepped, Wrong>
    requires { ((at < length s.now) × ((171 ≤ get_or s.now at 0) × (get_or s.now at 0 ≤ 234))) × SoundPage h }
    ensures { StepsWith s.now at h used result }
{
    let f = s[at] - opcode::FNTNUM0;
    if !may_choose(h, used, f) {
        return Err(Wrong::Bad);
    }
    Ok(Stepped::Go(h.with_font(Stage::Chosen, f), 0))
}

// fnt1.
pub fn select_high(s: &[u8], at: usize, h: PageState, used: Fonts) -> Result<Stepped, Wrong>
    requires { ((at < length s.now) × (get_or s.now at 0 ≡ 235)) × SoundPage h }
    ensures { StepsWith s.now at h used result }
{
    if s.len() - at < 2 {
        return Err(if may_begin_font(h, used) {
            Wrong::Short
        } else {
            Wrong::Bad
        });
    }
    let f = s[at + 1];
    if f < opcode::FNTNUMS || !may_choose(h, used, f) {
        return Err(Wrong::Bad);
    }
    Ok(Stepped::Go(h.with_font(Stage::Chosen, f), 1))
}

// The definition of font f.
pub fn definition(f: u8) -> [u8; font::DEFINITION]
    requires { f < 120 }
    ensures { result ≡ W.definition f }
{
    let mut e = [0u8; font::DEFINITION];
    font::put_definition(&mut e, 0, f);
    e
}

// fnt_def1, with font f after it.
fn define_font(s: &[u8], at: usize, h: PageState, used: Fonts, f: u8) -> Result<Stepped, Wrong>
    requires { ((at + 1 < length s.now) × ((get_or s.now at 0 ≡ 243) × (get_or s.now (at + 1) 0 ≡ f))) × (Page.is_ready (stage_of h.stage) ≡ true) }
    ensures { StepsWith s.now at h used result }
{
    if galley_file::font::FONTS <= f || fonts::has_font(used, f) {
        return Err(Wrong::Bad);
    }
    matching::compare(s, at, &definition(f))?;
    Ok(Stepped::Go(h.with_font(Stage::Named, f), font::DEFINITION - 1))
}

// fnt_def1.
pub fn define(s: &[u8], at: usize, h: PageState, used: Fonts) -> Result<Stepped, Wrong>
    requires { (at < length s.now) × (get_or s.now at 0 ≡ 243) }
    ensures { StepsWith s.now at h used result }
{
    if !h.stage.is_ready() {
        return Err(Wrong::Bad);
    }
    if s.len() - at < 2 {
        return Err(if some_free(used) {
            Wrong::Short
        } else {
            Wrong::Bad
        });
    }
    define_font(s, at, h, used, s[at + 1])
}
