// One command of a DVI file of 1980 (002): inside a page, or between pages.
#![tactic(auto)]

mod postamble;

ghost use Rattle.std.specs.Prelude.{◌≡◌, List, ◌+◌, ◌≤◌, ◌<◌, ℤ, length, get_or, drop};
ghost use Rattle.dvi.specs.Command.{PST as Pst};
ghost use Rattle.dvi.specs.Page.{max_stack};
ghost use Rattle.dvi.specs.File as S;
ghost use Rattle.dvi_page.specs.Page.{page_of, effect_of};
ghost use Rattle.dvi_step.specs.Step.{state_of, depth_of, step_of};

use dvi::mark::Mark;
use dvi::opcode;
use dvi_page::page::{Effect, Page};
use dvi_page::stack::Entries;
use octets::number;
use octets::refusal::Reason;

// Between pages or inside one, with the offset of the last BOP, -1 before the first.
#[derive(Clone, Copy)]
pub enum State {
    Between(i32),
    Inside(i32, Page),
}

// A refusal; the state after a command, with its mark if it has one, and the number of its parameters' bytes; or the file's end.
// A Result with the other three was tried, here and in `Effect`: reading a file then takes an eighth more instructions.
#[derive(Clone, Copy)]
pub enum Stepped {
    Refuse(Reason),
    Go(State, usize),
    Show(State, Mark, usize),
    Finish,
}

fn after_effect(last: i32, n: usize, e: Effect) -> Stepped
    ensures { (l : List ℤ) → step_of result l ≡ S.after_effect last n (effect_of e l) }
{
    match e {
        Effect::Fault(reason) => Stepped::Refuse(reason),
        Effect::Moved(p) => Stepped::Go(State::Inside(last, p), n),
        Effect::Marked(p, m) => Stepped::Show(State::Inside(last, p), m, n),
        Effect::Ended => Stepped::Go(State::Between(last), n),
    }
}

// A command inside a page.
fn in_page(
    dvi: &[u8],
    widths: &[i32],
    entries: &mut Entries,
    at: usize,
    last: i32,
    p: Page,
) -> Stepped
    requires { (at < length dvi.now) × (p.depth ≤ max_stack) }
    ensures { step_of result entries.new ≡ S.step widths.now at (S.inside last (page_of p entries.old)) (get_or dvi.now at 0) (drop (at + 1) dvi.now) }
{
    match dvi_command::decode(dvi, at + 1, dvi[at]) {
        Err(reason) => Stepped::Refuse(reason),
        Ok(d) => after_effect(
            last,
            d.length,
            dvi_effect::effect_of(widths, entries, p, d.command),
        ),
    }
}

// BOP.
fn begin_page(dvi: &[u8], at: usize, last: i32) -> Stepped
    requires { (at < length dvi.now) × (at < 2147483648) }
    ensures { (l : List ℤ) → step_of result l ≡ S.begin_page last at (drop (at + 1) dvi.now) }
{
    if dvi.len() - at < opcode::BOP_LENGTH {
        return Stepped::Refuse(Reason::DviEndsEarly);
    }
    let n = number::signed4_at(dvi, at + 1);
    if number::signed4_at(dvi, at + 5) != last {
        return Stepped::Refuse(Reason::WrongOffset);
    }
    Stepped::Show(State::Inside(at as i32, Page::new()), Mark::Start(n), 8)
}

// PST.
fn end_file(dvi: &[u8], at: usize, last: i32) -> Stepped
    requires { (at < length dvi.now) × (at < 2147483648) }
    ensures { (ws l : List ℤ) → step_of result l ≡ S.step ws at (S.between last) Pst (drop (at + 1) dvi.now) }
{
    if last < 0 {
        return Stepped::Refuse(Reason::BadCommand);
    }
    if postamble::is_postamble(dvi, at, last) {
        Stepped::Finish
    } else {
        Stepped::Refuse(Reason::BadPostamble)
    }
}

// A command between pages.
pub fn between_pages(dvi: &[u8], at: usize, last: i32) -> Stepped
    requires { (at < length dvi.now) × (at < 2147483648) }
    ensures { (ws l : List ℤ) → step_of result l ≡ S.step ws at (S.between last) (get_or dvi.now at 0) (drop (at + 1) dvi.now) }
{
    match dvi[at] {
        opcode::BOP => begin_page(dvi, at, last),
        opcode::PST => end_file(dvi, at, last),
        _ => Stepped::Refuse(Reason::BadCommand),
    }
}

// The command at `at`.
pub fn step(dvi: &[u8], widths: &[i32], entries: &mut Entries, at: usize, q: State) -> Stepped
    requires { (at < length dvi.now) × ((at < 2147483648) × (depth_of q ≤ max_stack)) }
    ensures { step_of result entries.new ≡ S.step widths.now at (state_of q entries.old) (get_or dvi.now at 0) (drop (at + 1) dvi.now) }
{
    match q {
        State::Between(last) => between_pages(dvi, at, last),
        State::Inside(last, p) => in_page(dvi, widths, entries, at, last, p),
    }
}
