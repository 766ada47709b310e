// The sheet's fields; the limits of what a reader is lent.
#![tactic(auto)]

ghost use Rattle.std.specs.Prelude.{◌≡◌, true, ◌++◌, ◌+◌, ◌≤◌, length};
ghost use Rattle.octets.specs.Octets.{signed_bytes};
ghost use Rattle.octets.specs.Write.{Wrote, Put};
ghost use Rattle.sheet.specs.Sheet.{page_mark, char_mark, rule_mark, mark_field};
ghost use Rattle.sheet.specs.Readable.{last_place, call_answer};

use octets::refusal::{Reason, Refusal};
use octets::{field, number};

// The longest file.
pub const MAX_FILE: usize = 33_554_432;

// The characters of a font.
pub const FONT_CHARS: usize = 128;

const PAGE_TAG: u8 = 5;

const PAGE_LENGTH: u32 = 4;

const CHAR_TAG: u8 = 3;

const CHAR_LENGTH: u32 = 13;

const RULE_TAG: u8 = 4;

const RULE_LENGTH: u32 = 17;

// The bytes of a whole field of each kind.
pub const PAGE_FIELD: usize = field::HEAD + PAGE_LENGTH as usize;

pub const CHAR_FIELD: usize = field::HEAD + CHAR_LENGTH as usize;

const RULE_FIELD: usize = field::HEAD + RULE_LENGTH as usize;

// The tests of a reader's whole call, by the length of its file and whether its table of widths is whole. A refusal has place 0.
pub fn call_refusal(file: usize, whole: bool) -> Result<(), Refusal>
    ensures { result ≡ call_answer file whole }
{
    if MAX_FILE < file {
        Err(Reason::FileTooLong.at(0))
    } else if whole {
        Ok(())
    } else {
        Err(Reason::WidthsNotWhole.at(0))
    }
}

// Writes a number. The test always holds: it keeps the four stores in a block of their own, where the compiler makes one of them.
fn put_number(out: &mut [u8], at: usize, z: i32) -> usize
    requires { at + 4 ≤ length out.old }
    ensures { Wrote out.old at (signed_bytes 4 z) out.new result }
{
    if at + 4 <= out.len() {
        return number::put_signed4(out, at, z);
    }
    at + 4
}

// Writes two numbers.
fn put_two(out: &mut [u8], at: usize, a: i32, b: i32) -> usize
    requires { at + 8 ≤ length out.old }
    ensures { Wrote out.old at (signed_bytes 4 a ++ signed_bytes 4 b) out.new result }
{
    let next = put_number(out, at, a);
    put_number(out, next, b)
}

fn put_page(out: &mut [u8], at: usize, n: i32) -> usize
    requires { at + 7 ≤ length out.old }
    ensures { Wrote out.old at (mark_field (page_mark n)) out.new result }
{
    let next = field::put_head(out, at, PAGE_TAG, PAGE_LENGTH);
    put_number(out, next, n)
}

fn put_char(out: &mut [u8], at: usize, x: i32, y: i32, font: i32, ch: u8) -> usize
    requires { at + 16 ≤ length out.old }
    ensures { Wrote out.old at (mark_field (char_mark x y font ch)) out.new result }
{
    let body = field::put_head(out, at, CHAR_TAG, CHAR_LENGTH);
    let placed = put_two(out, body, x, y);
    let next = put_number(out, placed, font);
    number::put_byte(out, next, ch)
}

fn put_rule(out: &mut [u8], at: usize, kind: u8, x: i32, y: i32, h: i32, w: i32) -> usize
    requires { at + 20 ≤ length out.old }
    ensures { Wrote out.old at (mark_field (rule_mark kind x y h w)) out.new result }
{
    let body = field::put_head(out, at, RULE_TAG, RULE_LENGTH);
    let next = number::put_byte(out, body, kind);
    let placed = put_two(out, next, x, y);
    put_two(out, placed, h, w)
}

// The same three, if writing; without writing, only the place after the field.
pub fn show_page(out: &mut [u8], to: usize, n: i32, writing: bool) -> usize
    requires { (to ≤ last_place) × (writing ≡ true → to + 7 ≤ length out.old) }
    ensures { Put writing out.old to (mark_field (page_mark n)) out.new result }
{
    if writing {
        return put_page(out, to, n);
    }
    to + PAGE_FIELD
}

pub fn show_char(
    out: &mut [u8],
    to: usize,
    x: i32,
    y: i32,
    font: i32,
    ch: u8,
    writing: bool,
) -> usize
    requires { (to ≤ last_place) × (writing ≡ true → to + 16 ≤ length out.old) }
    ensures { Put writing out.old to (mark_field (char_mark x y font ch)) out.new result }
{
    if writing {
        return put_char(out, to, x, y, font, ch);
    }
    to + CHAR_FIELD
}

pub fn show_rule(
    out: &mut [u8],
    to: usize,
    kind: u8,
    x: i32,
    y: i32,
    h: i32,
    w: i32,
    writing: bool,
) -> usize
    requires { (to ≤ last_place) × (writing ≡ true → to + 20 ≤ length out.old) }
    ensures { Put writing out.old to (mark_field (rule_mark kind x y h w)) out.new result }
{
    if writing {
        return put_rule(out, to, kind, x, y, h, w);
    }
    to + RULE_FIELD
}
