// The item that a mark shows.
ghost use Rattle.std.specs.Prelude.{◌≡◌, true, cond, ℕ, suc, pos};
ghost use Rattle.std.proofs.Math.Option.{none, some};
ghost use Rattle.integers.specs.Equality.{eq_z};
ghost use Rattle.measure.specs.Place.{height_end, within};
ghost use Rattle.measure.specs.Target.{x_targets};
ghost use Rattle.galley_file.specs.declared.item.Item.TheVariants as I;
ghost use Rattle.dvi.specs.Mark.{mark_of};
ghost use Rattle.dvi_galley.specs.Target.{x_of_target, height_of_target};
ghost use Rattle.dvi_galley.specs.Back.{placed_item, character_shown, item_shown};
ghost use Rattle.dvi_galley.specs.Taken.{taken_of};

use crate::target;
use dvi::mark::Mark;
use galley_file::character::Character;
use galley_file::item::Item;
use galley_file::{character, font};
use measure::target_table::TargetTable;
use measure::{Quanta, Rsu, Units};

const FONTS: i32 = font::FONTS as i32;

// A character at x and of height h, if it is valid.
fn valid_at(x: Units, h: Quanta, font: i32, ch: u8) -> Option<Item>
    requires { within height_end h.0 ≡ true }
    ensures { taken_of result ≡ placed_item (character_shown (some x.0) (some h.0) font ch) }
{
    if font < 0 || FONTS <= font {
        return None;
    }
    let c = Character {
        x,
        height: h,
        font: font as u8,
        code: ch,
    };
    if character::valid_but_height(c) {
        Some(Item::Placed(c))
    } else {
        None
    }
}

// A character whose targets are x and y.
fn character_of(targets: &TargetTable, x: Rsu, y: Rsu, font: i32, ch: u8) -> Option<Item>
    requires { targets.now ≡ x_targets }
    ensures { taken_of result ≡ placed_item (character_shown (x_of_target x.0) (height_of_target y.0) font ch) }
{
    let u = target::x_of_target(targets, x)?;
    let h = target::height_of_target(y)?;
    valid_at(u, h, font, ch)
}

// The start of page n, where `next` is due.
fn page_of(next: i64, n: i32) -> Option<Item>
    ensures { taken_of result ≡ cond (eq_z n next) (some I.Cut) none }
{
    if n as i64 == next {
        Some(Item::Cut)
    } else {
        None
    }
}

// The item that a mark shows, where page `next` is due.
pub fn item_of(targets: &TargetTable, next: i64, m: Mark) -> Option<Item>
    requires { targets.now ≡ x_targets }
    ensures { (n : ℕ) → next ≡ pos (suc n) → taken_of result ≡ item_shown n (mark_of m) }
{
    match m {
        Mark::Start(n) => page_of(next, n),
        Mark::Char { ch, x, y, font } => character_of(targets, x, y, font, ch),
        Mark::Rule { .. } => None,
    }
}
