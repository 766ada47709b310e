// What each command does to a page.
#![tactic(auto)]

ghost use Rattle.std.specs.Prelude.{◌≡◌, List, ◌≤◌, ℤ};
ghost use Rattle.dvi.specs.Command.{NoBracket};
ghost use Rattle.dvi.specs.Mark.{mark_of};
ghost use Rattle.dvi.specs.Page as S;
ghost use Rattle.dvi_command.specs.Command.{command_of};
ghost use Rattle.dvi_page.specs.Page.{page_of, effect_of};
ghost use Rattle.dvi_effect.specs.Width.{lent_width};

use dvi::mark;
use dvi::mark::Mark;
use dvi_command::Command;
use dvi_page::page::{Effect, Page};
use dvi_page::stack::{Entries, Numbers};
use measure::Rsu;
use octets::refusal::Reason;

const LAST_CHAR: u32 = 127;

// The width of character c in font f. The table has numbers, which are rsu here.
fn width_of(widths: &[i32], f: i32, c: u8) -> Option<Rsu>
    ensures { lent_width result ≡ S.width_in widths.now f c }
{
    if f < 0 {
        return None;
    }
    let i = sheet::FONT_CHARS * (f as usize) + (c as usize);
    if widths.len() <= i {
        return None;
    }
    Some(Rsu(widths[i]))
}

// Character c in font f at the current position.
fn char_here(p: Page, f: i32, c: u8) -> Mark
    ensures { (l : List ℤ) → mark_of result ≡ S.char_here (page_of p l) f c }
{
    Mark::Char {
        x: p.numbers.x,
        y: p.numbers.y,
        font: f,
        ch: c,
    }
}

// A rule at the current position.
fn rule_here(p: Page, kind: u8, height: Rsu, width: Rsu) -> Mark
    ensures { (l : List ℤ) → mark_of result ≡ S.rule_here (page_of p l) kind height.0 width.0 }
{
    Mark::Rule {
        kind,
        x: p.numbers.x,
        y: p.numbers.y,
        height,
        width,
    }
}

// 0 to 127.
fn set_char(widths: &[i32], p: Page, c: u8) -> Effect
    ensures { (l : List ℤ) → effect_of result l ≡ S.effect widths.now (page_of p l) (command_of (Command.SetChar c)) }
{
    if p.has_font {
        match width_of(widths, p.font, c) {
            Some(d) => p.show_right(char_here(p, p.font, c), d),
            None => Effect::Fault(Reason::CannotSet),
        }
    } else {
        Effect::Fault(Reason::CannotSet)
    }
}

// HORZCHAR: the place stays.
fn horz_char(p: Page, c: i32) -> Effect
    ensures { (ws l : List ℤ) → effect_of result l ≡ S.effect ws (page_of p l) (command_of (Command.HorzChar c)) }
{
    if p.has_font {
        if c < 0 {
            return Effect::Fault(Reason::CannotSet);
        }
        let code = c as u32;
        if LAST_CHAR < code {
            return Effect::Fault(Reason::CannotSet);
        }
        Effect::Marked(p, char_here(p, p.font, code as u8))
    } else {
        Effect::Fault(Reason::CannotSet)
    }
}

// VERTRULE: the place moves right by the width.
fn vert_rule(p: Page, h: Rsu, w: Rsu) -> Effect
    ensures { (ws l : List ℤ) → effect_of result l ≡ S.effect ws (page_of p l) (command_of (Command.VertRule h w)) }
{
    p.show_right(rule_here(p, mark::VERTICAL, h, w), w)
}

// HORZRULE: the place stays.
fn horz_rule(p: Page, h: Rsu, w: Rsu) -> Effect
    ensures { (ws l : List ℤ) → effect_of result l ≡ S.effect ws (page_of p l) (command_of (Command.HorzRule h w)) }
{
    Effect::Marked(p, rule_here(p, mark::HORIZONTAL, h, w))
}

fn set_font(p: Page, f: i32) -> Effect
    ensures { (ws l : List ℤ) → effect_of result l ≡ S.effect ws (page_of p l) (command_of (Command.SetFont f)) }
{
    Effect::Moved(Page {
        has_font: true,
        font: f,
        ..p
    })
}

// The effect of a command other than PUSH and POP, which alone know the stack.
pub fn plain_effect(widths: &[i32], p: Page, c: Command) -> Effect
    requires { NoBracket (command_of c) }
    ensures { (l : List ℤ) → effect_of result l ≡ S.effect widths.now (page_of p l) (command_of c) }
{
    let n = p.numbers;
    match c {
        Command::SetChar(k) => set_char(widths, p, k),
        Command::Nop | Command::Push | Command::Pop => Effect::Moved(p),
        Command::Eop => p.end(),
        Command::VertRule(h, w) => vert_rule(p, h, w),
        Command::HorzRule(h, w) => horz_rule(p, h, w),
        Command::HorzChar(k) => horz_char(p, k),
        Command::SetFont(f) => set_font(p, f),
        Command::MoveW(m) => p.right(Numbers { wa: m, ..n }, m),
        Command::MoveW0 => p.right(n, n.wa),
        Command::MoveX(m) => p.right(Numbers { xa: m, ..n }, m),
        Command::MoveX0 => p.right(n, n.xa),
        Command::MoveY(m) => p.down(Numbers { ya: m, ..n }, m),
        Command::MoveY0 => p.down(n, n.ya),
        Command::MoveZ(m) => p.down(Numbers { za: m, ..n }, m),
        Command::MoveZ0 => p.down(n, n.za),
    }
}

// The effect of a command.
pub fn effect_of(widths: &[i32], entries: &mut Entries, p: Page, c: Command) -> Effect
    requires { p.depth ≤ S.max_stack }
    ensures { effect_of result entries.new ≡ S.effect widths.now (page_of p entries.old) (command_of c) }
{
    match c {
        Command::Push => p.push(entries),
        Command::Pop => p.pop(entries),
        _ => plain_effect(widths, p, c),
    }
}
