// What a page of a DVI file of 1980 shows, in rsu, and its field on the sheet.
ghost use Rattle.std.specs.Prelude.{◌≡◌, true, ◌+◌, ◌≤◌, length};
ghost use Rattle.octets.specs.Write.{Put};
ghost use Rattle.sheet.specs.Sheet.{mark_field};
ghost use Rattle.sheet.specs.SheetLaws.{field_size};
ghost use Rattle.sheet.specs.Readable.{last_place};
ghost use Rattle.dvi.specs.Mark.{mark_of};

use measure::Rsu;

// The kinds of rules.
pub const VERTICAL: u8 = 0;

pub const HORIZONTAL: u8 = 1;

// The start of a page, a character, a rule.
#[derive(Clone, Copy)]
pub enum Mark {
    Start(i32),
    Char {
        ch: u8,
        x: Rsu,
        y: Rsu,
        font: i32,
    },
    Rule {
        // A number, as show_mark and sheet::show_rule give the field of any: an enum would ask more of their callers.
        kind: u8,
        x: Rsu,
        y: Rsu,
        height: Rsu,
        width: Rsu,
    },
}

// Writes a mark's field, if writing; gives the place after it. Here alone rsu become the sheet's numbers. The kind is asked before the
// flag, so that each command goes straight to its own field.
pub fn show_mark(out: &mut [u8], to: usize, m: Mark, writing: bool) -> usize
    requires { (to ≤ last_place) × (writing ≡ true → to + field_size (mark_of m) ≤ length out.old) }
    ensures { Put writing out.old to (mark_field (mark_of m)) out.new result }
{
    match m {
        Mark::Start(n) => sheet::show_page(out, to, n, writing),
        Mark::Char { x, y, font, ch } => sheet::show_char(out, to, x.0, y.0, font, ch, writing),
        Mark::Rule {
            kind,
            x,
            y,
            height,
            width,
        } => sheet::show_rule(out, to, kind, x.0, y.0, height.0, width.0, writing),
    }
}
