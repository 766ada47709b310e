// The fields of a character.
ghost use Rattle.std.specs.Prelude.{◌≡◌, true, [], ◌∷◌, ℕ, ◌+◌, ◌≤◌, ℤ, pos, length};
ghost use Rattle.octets.specs.Write.{Put};
ghost use Rattle.sheet.specs.Sheet.{char_mark, mark_fields};
ghost use Rattle.sheet.specs.Readable.{last_place};
ghost use Rattle.xgp.specs.State.{page_marks, set_marks};

use xgp::state::State;
use xgp_code::measure::Lines;

// Writes the page's field before its first character, if writing; gives the place after it.
fn show_first(out: &mut [u8], to: usize, s: State, writing: bool) -> usize
    requires { (to ≤ last_place) × ((s.page ≤ 2147483647) × (writing ≡ true → to + length (mark_fields (page_marks s)) ≤ length out.old)) }
    ensures { Put writing out.old to (mark_fields (page_marks s)) out.new result }
{
    if s.started {
        return to;
    }
    sheet::show_page(out, to, s.page as i32, writing)
}

// Writes the field of the character c at y, if writing; gives the place after it.
fn show_char(out: &mut [u8], to: usize, s: State, y: Lines, c: u8, writing: bool) -> usize
    requires { (to ≤ last_place) × (writing ≡ true → to + 16 ≤ length out.old) }
    ensures { Put writing out.old to (mark_fields (char_mark s.x.0 y.0 (pos s.font) c ∷ [])) out.new result }
{
    sheet::show_char(out, to, s.x.0, y.0, i32::from(s.font), c, writing)
}

// The two together.
pub fn show_set(out: &mut [u8], to: usize, s: State, y: Lines, c: u8, writing: bool) -> usize
    requires { (to + length (mark_fields (page_marks s)) ≤ last_place) × ((s.page ≤ 2147483647) × (writing ≡ true → to + length (mark_fields (page_marks s)) + 16 ≤ length out.old)) }
    ensures { Put writing out.old to (mark_fields (set_marks s y.0 c)) out.new result }
{
    let next = show_first(out, to, s, writing);
    show_char(out, next, s, y, c, writing)
}

// How many fields that is.
pub fn number(s: State) -> u32
    ensures { ((y : ℤ) (c : ℕ) → result ≡ length (set_marks s y c)) × (result ≤ 2) }
{
    if s.started { 1 } else { 2 }
}
