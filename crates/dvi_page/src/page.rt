// A page: its moves, its stack, its end.
ghost use Rattle.std.specs.Prelude.{◌≡◌, List, ◌≤◌, ℤ};
ghost use Rattle.dvi.specs.Mark.{mark_of};
ghost use Rattle.dvi.specs.Page as S;
ghost use Rattle.dvi_page.specs.Stack.{six_numbers, stack_of};
ghost use Rattle.dvi_page.specs.Page.{page_of, effect_of};

use crate::stack;
use crate::stack::{Entries, Numbers};
use dvi::mark::Mark;
use measure::Rsu;
use octets::reach;
use octets::refusal::Reason;

// The stack's entries lie in an array beside the page. The font counts where has_font says so. An Option in their place was tried: reading a
// file then takes a quarter more instructions.
#[derive(Clone, Copy)]
pub struct Page {
    pub has_font: bool,
    pub numbers: Numbers,
    pub font: i32,
    pub depth: usize,
}

// What a command does. A Result with the other three was tried: reading a file then takes an eighth more instructions.
#[derive(Clone, Copy)]
pub enum Effect {
    Fault(Reason),
    Moved(Page),
    Marked(Page, Mark),
    Ended,
}

impl Page {
    // The page after BOP.
    pub fn new() -> Page
        ensures { (l : List ℤ) → page_of result l ≡ S.new_page }
    {
        Page {
            numbers: Numbers {
                x: Rsu(0),
                y: Rsu(0),
                wa: Rsu(0),
                xa: Rsu(0),
                ya: Rsu(0),
                za: Rsu(0),
            },
            has_font: false,
            font: 0,
            depth: 0,
        }
    }

    // The page with other numbers.
    pub fn with_numbers(self, numbers: Numbers) -> Page
        ensures { (l : List ℤ) → page_of result l ≡ S.with_numbers (page_of self l) (six_numbers numbers) }
    {
        Page { numbers, ..self }
    }

    // The page goes on m to the right of the numbers n.
    pub fn right(self, n: Numbers, m: Rsu) -> Effect
        ensures { (l : List ℤ) → effect_of result l ≡ S.go_to (page_of self l) (S.right_by m.0 (six_numbers n)) }
    {
        let Some(to) = reach::sum(n.x.0, m.0) else {
            return Effect::Fault(Reason::OutOf32Bits);
        };
        Effect::Moved(self.with_numbers(Numbers { x: Rsu(to), ..n }))
    }

    pub fn down(self, n: Numbers, m: Rsu) -> Effect
        ensures { (l : List ℤ) → effect_of result l ≡ S.go_to (page_of self l) (S.down_by m.0 (six_numbers n)) }
    {
        let Some(to) = reach::sum(n.y.0, m.0) else {
            return Effect::Fault(Reason::OutOf32Bits);
        };
        Effect::Moved(self.with_numbers(Numbers { y: Rsu(to), ..n }))
    }

    // The page shows k and goes on m to the right.
    pub fn show_right(self, k: Mark, m: Rsu) -> Effect
        ensures { (l : List ℤ) → effect_of result l ≡ S.show_and_go_to (page_of self l) (mark_of k) (S.right_by m.0 (six_numbers self.numbers)) }
    {
        let n = self.numbers;
        let Some(to) = reach::sum(n.x.0, m.0) else {
            return Effect::Fault(Reason::OutOf32Bits);
        };
        Effect::Marked(self.with_numbers(Numbers { x: Rsu(to), ..n }), k)
    }

    pub fn push(self, entries: &mut Entries) -> Effect
        ensures { effect_of result entries.new ≡ S.pushed (page_of self entries.old) }
    {
        if stack::MAX_STACK <= self.depth {
            return Effect::Fault(Reason::StackFull);
        }
        stack::put_entry(entries, self.depth, self.numbers);
        let mut page = self;
        page.depth += 1;
        Effect::Moved(page)
    }

    pub fn pop(self, entries: &Entries) -> Effect
        requires { self.depth ≤ S.max_stack }
        ensures { effect_of result entries.now ≡ S.popped (page_of self entries.now) (stack_of entries.now self.depth) }
    {
        if self.depth == 0 {
            return Effect::Fault(Reason::StackEmpty);
        }
        let depth = self.depth - 1;
        let mut page = self.with_numbers(stack::entry(entries, depth));
        page.depth = depth;
        Effect::Moved(page)
    }

    pub fn end(self) -> Effect
        ensures { (l : List ℤ) → effect_of result l ≡ S.end_page (stack_of l self.depth) }
    {
        if self.depth == 0 {
            Effect::Ended
        } else {
            Effect::Fault(Reason::EntriesLeft)
        }
    }
}
