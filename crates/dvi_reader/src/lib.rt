// DVI files of 1980 (002), read into sheets with a lent table of widths.
#![tactic(auto)]

ghost use Rattle.std.specs.Prelude.{◌≡◌, true, ◌≤◌, length};
ghost use Rattle.octets.specs.Answer.{outcome_of, Gives};
ghost use Rattle.octets.specs.Pass.{Roomy, Passed};
ghost use Rattle.sheet.specs.Shown.{shown_result};
ghost use Rattle.sheet.specs.Readable.{max_file};
ghost use Rattle.dvi.specs.File.{read_dvi};
ghost use Rattle.dvi.specs.Sheet.{sheet_result};

use dvi::mark;
use dvi_page::stack;
use dvi_step::{State, Stepped};
use octets::pass::TwoPass;
use octets::refusal::{Answer, Reason};
use octets::{field, pass};

// One pass over a file within the limit. It writes the sheet, if writing.
fn pass(dvi: &[u8], widths: &[i32], out: &mut [u8], writing: bool) -> Answer
    requires dvi_len_bound { length dvi.now ≤ max_file }
    requires roomy { writing ≡ true → Roomy (shown_result (read_dvi widths.now dvi.now)) (length out.old) }
    ensures { Passed (shown_result (read_dvi widths.now dvi.now)) writing out.old result out.new }
{
    let mut stack = [0i32; stack::STACK_SIZE];
    let mut q = State::Between(-1);
    let mut at: usize = 0;
    let mut to: usize = 0;
    let mut count: u32 = 0;
    // A turn takes as many bytes as its command has, which no iterator over bytes does.
    while at < dvi.len() {
        match dvi_step::step(dvi, widths, &mut stack, at, q) {
            Stepped::Refuse(reason) => {
                return Err(reason.at(at));
            }
            Stepped::Go(t, n) => {
                q = t;
                at = at + 1 + n;
            }
            Stepped::Show(t, m, n) => {
                to = mark::show_mark(out, to, m, writing);
                count += 1;
                q = t;
                at = at + 1 + n;
            }
            Stepped::Finish => {
                field::show_end(out, to, count, writing);
                return Ok(to + field::END_FIELD);
            }
        }
    }
    Err(Reason::DviEndsEarly.at(at))
}

// What a call is lent to read, a file within the limit.
#[derive(Clone, Copy)]
struct Input<'a> {
    dvi: &'a [u8],
    widths: &'a [i32],
    ghost within: { length dvi.now ≤ max_file },
}

impl TwoPass for Input<'_> {
    ghost made = { λ input. shown_result (read_dvi input.widths.now input.dvi.now) };

    fn pass(&self, out: &mut [u8], writing: bool) -> Answer {
        pass(self.dvi, self.widths, out, writing)
    }
}

// Reads a DVI file into the lent sheet buffer.
pub fn read_dvi(dvi: &[u8], widths: &[i32], sheet: &mut [u8]) -> Answer
    ensures { Gives (outcome_of result) (sheet_result dvi.now widths.now) sheet.old sheet.new }
{
    sheet::call_refusal(dvi.len(), widths.len() % sheet::FONT_CHARS == 0)?;
    pass::in_two_passes(&Input { dvi, widths }, sheet, Reason::NoSheetRoom)
}
