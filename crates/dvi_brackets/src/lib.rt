// PUSH and POP inside a page of a DVI file of 1980 (002), read as brackets: a run is made of items, and an item is a command or a group.
// The readers of a run and of an item call each other.
#![tactic(auto)]

ghost use Rattle.std.specs.Prelude.{◌≡◌, true, [], ◌+◌, ◌≤◌, ◌<◌, length, get_or, drop};
ghost use Rattle.dvi.specs.Command.{PUSH as Push, POP as Pop, decode as decodeOf};
ghost use Rattle.sheet.specs.Readable.{max_file};
ghost use Rattle.dvi_page.specs.Page.{page_of, effect_of};
ghost use Rattle.dvi_brackets.specs.Brackets.{effect_item, command_item, run, item_here};
ghost use Rattle.dvi_brackets.specs.Reading.{InFile, RoomyItem, ItemDone, RoomyRun, RunDone, LeavesAt, LeftBy};

use dvi::{mark, opcode};
use dvi_page::page::{Effect, Page};
use octets::refusal::Reason;

// A refusal at a place; the page after the item, the number of its bytes after the first, the place in the sheet and the marks so far; or EOP.
// A Result with the other cases was tried, here and in `Run`: reading a file then takes a third more instructions.
#[derive(Clone, Copy)]
pub enum Item {
    Fault(Reason, usize),
    Past(Page, usize, usize, u32),
    End,
}

// A refusal at a place; or a POP or an EOP that ends the run: the page before the POP, the number of bytes before it, the place in the sheet
// and the marks so far.
#[derive(Clone, Copy)]
pub enum Run {
    Fault(Reason, usize),
    Pop(Page, usize, usize, u32),
    Eop(usize, usize, u32),
}

// What a command's effect leads to; its mark is written, if writing.
fn effect_item(
    out: &mut [u8],
    at: usize,
    n: usize,
    e: Effect,
    to: usize,
    count: u32,
    writing: bool,
) -> Item
    requires in_file { InFile at to count }
    requires roomy_item { writing ≡ true → RoomyItem (effect_item at n (effect_of e [])) to (length out.old) }
    ensures { ItemDone (effect_item at n (effect_of e [])) writing out.old to count result out.new }
{
    match e {
        Effect::Fault(reason) => Item::Fault(reason, at),
        Effect::Moved(q) => Item::Past(q, n, to, count),
        Effect::Marked(q, m) => {
            let next = mark::show_mark(out, to, m, writing);
            Item::Past(q, n, next, count + 1)
        }
        Effect::Ended => Item::End,
    }
}

// An item that is a command: the one at the start of s.
fn command_item(
    s: &[u8],
    widths: &[i32],
    out: &mut [u8],
    at: usize,
    p: Page,
    to: usize,
    count: u32,
    writing: bool,
) -> Item
    requires s_nonzero { (0 < length s.now) × InFile at to count }
    requires fact { (get_or s.now 0 0 ≡ Push → ⊥) × (get_or s.now 0 0 ≡ Pop → ⊥) }
    requires roomy_item { writing ≡ true → RoomyItem (command_item widths.now at (page_of p []) (decodeOf (get_or s.now 0 0) (drop 1 s.now))) to (length out.old) }
    ensures { ItemDone (command_item widths.now at (page_of p []) (decodeOf (get_or s.now 0 0) (drop 1 s.now))) writing out.old to count result out.new }
{
    match dvi_command::decode(s, 1, s[0]) {
        Err(reason) => Item::Fault(reason, at),
        Ok(d) => {
            let e = dvi_effect::plain_effect(widths, p, d.command);
            effect_item(out, at, d.length, e, to, count, writing)
        }
    }
}

// The group that was entered on the page p, with its PUSH at `at`, is left: the six numbers are what they were on entering.
fn leave(at: usize, p: Page, r: Run) -> Item
    requires { LeavesAt at r }
    ensures { LeftBy at p r result }
{
    match r {
        Run::Fault(reason, place) => Item::Fault(reason, place),
        Run::Pop(q, n, to, count) => {
            let kept = p.numbers;
            Item::Past(q.with_numbers(kept), n + 1, to, count)
        }
        Run::Eop(n, _, _) => Item::Fault(Reason::EntriesLeft, at + 1 + n),
    }
}

// The item at the start of s, which stands at `at`: a command, or a group where `depth` groups may stand in one another.
#[cycle(read_item_read_run)]
fn read_item(
    s: &[u8],
    widths: &[i32],
    out: &mut [u8],
    at: usize,
    depth: usize,
    p: Page,
    to: usize,
    count: u32,
    writing: bool,
) -> Item
    requires s_nonzero { (0 < length s.now) × ((get_or s.now 0 0 ≡ Pop → ⊥) × ((at + length s.now ≤ max_file) × InFile at to count)) }
    requires roomy_item { writing ≡ true → RoomyItem (item_here widths.now depth at (page_of p []) s.now) to (length out.old) }
    ensures { ItemDone (item_here widths.now depth at (page_of p []) s.now) writing out.old to count result out.new }
{
    if s[0] != opcode::PUSH {
        return command_item(s, widths, out, at, p, to, count, writing);
    }
    if depth == 0 {
        return Item::Fault(Reason::StackFull, at);
    }
    let inner = &s[1..];
    let r = read_run(inner, widths, out, at + 1, depth - 1, p, to, count, writing);
    leave(at, p, r)
}

// The run at the start of s, which stands at `at`, up to a POP that closes no group of it, or EOP; `depth` groups may stand in one another.
#[cycle(read_item_read_run)]
pub fn read_run(
    s: &[u8],
    widths: &[i32],
    out: &mut [u8],
    at: usize,
    depth: usize,
    p: Page,
    to: usize,
    count: u32,
    writing: bool,
) -> Run
    requires s_bound { (at + length s.now ≤ max_file) × InFile at to count }
    requires roomy_run { writing ≡ true → RoomyRun (run widths.now depth at (page_of p []) 0 s.now) to (length out.old) }
    ensures { RunDone (run widths.now depth at (page_of p []) 0 s.now) writing out.old to count result out.new }
{
    let mut q = p;
    let mut i: usize = 0;
    let mut t = to;
    let mut c = count;
    // A turn takes as many bytes as its item has, which no iterator over bytes does.
    while i < s.len() {
        if s[i] == opcode::POP {
            return Run::Pop(q, i, t, c);
        }
        let rest = &s[i..];
        match read_item(rest, widths, out, at + i, depth, q, t, c, writing) {
            Item::Fault(reason, place) => {
                return Run::Fault(reason, place);
            }
            Item::Past(next, n, u, d) => {
                q = next;
                i = i + 1 + n;
                t = u;
                c = d;
            }
            Item::End => {
                return Run::Eop(i, t, c);
            }
        }
    }
    Run::Fault(Reason::DviEndsEarly, at + i)
}
