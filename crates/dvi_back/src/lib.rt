// DVI files of 1980 made into galleys again (document 02, "DVI back to a galley").
#![tactic(auto)]

mod tally;

ghost use Rattle.std.specs.Prelude.{◌≡◌, true, ◌≤◌, length};
ghost use Rattle.octets.specs.Answer.{outcome_of, Gives};
ghost use Rattle.octets.specs.Pass.{Roomy, Passed};
ghost use Rattle.dvi.specs.File.{read_placed};
ghost use Rattle.sheet.specs.Readable.{max_file};
ghost use Rattle.dvi_galley.specs.Back.{shown_galley, back_result};

use dvi_galley::item;
use dvi_page::stack;
use dvi_step::{State, Stepped};
use measure::target_table;
use octets::pass;
use octets::pass::TwoPass;
use octets::refusal::{Answer, Reason};
use tally::Tally;

// One pass over a file within the limit. It writes the galley, if writing.
fn pass(dvi: &[u8], widths: &[i32], out: &mut [u8], writing: bool) -> Answer
    requires dvi_len_bound { length dvi.now ≤ max_file }
    requires roomy { writing ≡ true → Roomy (shown_galley (read_placed widths.now dvi.now)) (length out.old) }
    ensures { Passed (shown_galley (read_placed widths.now dvi.now)) writing out.old result out.new }
{
    let targets = target_table::targets();
    let mut stack = [0i32; stack::STACK_SIZE];
    let mut q = State::Between(-1);
    let mut at: usize = 0;
    let mut g = Tally::Nothing;
    // A turn takes as many bytes as its command has, which no iterator over bytes does.
    while at < dvi.len() {
        match dvi_step::step(dvi, widths, &mut stack, at, q) {
            Stepped::Refuse(reason) => {
                return Err(reason.at(at));
            }
            Stepped::Go(t, n) => {
                q = t;
                at = at + 1 + n;
            }
            Stepped::Show(t, m, n) => {
                let i = item::item_of(&targets, g.next_page(), m);
                g.show_item(out, i, writing);
                g = g.with_item(at, i);
                q = t;
                at = at + 1 + n;
            }
            Stepped::Finish => {
                return g.finish(out, writing);
            }
        }
    }
    Err(Reason::DviEndsEarly.at(at))
}

// What a call is lent to read, a file within the limit.
#[derive(Clone, Copy)]
struct Input<'a> {
    dvi: &'a [u8],
    widths: &'a [i32],
    ghost within: { length dvi.now ≤ max_file },
}

impl TwoPass for Input<'_> {
    ghost made = { λ input. shown_galley (read_placed input.widths.now input.dvi.now) };

    fn pass(&self, out: &mut [u8], writing: bool) -> Answer {
        pass(self.dvi, self.widths, out, writing)
    }
}

// Makes the galley whose targets a DVI file shows.
pub fn dvi_to_galley(dvi: &[u8], widths: &[i32], galley: &mut [u8]) -> Answer
    ensures { Gives (outcome_of result) (back_result dvi.now widths.now) galley.old galley.new }
{
    sheet::call_refusal(dvi.len(), widths.len() % sheet::FONT_CHARS == 0)?;
    pass::in_two_passes(&Input { dvi, widths }, galley, Reason::NoGalleyRoom)
}
