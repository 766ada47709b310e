// A second reader of DVI files of 1980, which takes PUSH and POP as brackets and keeps no stack: a run is made of items, and an item is a
// command or a group.
#![tactic(auto)]

ghost use Rattle.std.specs.Prelude.{◌≡◌, true, ◌+◌, ◌≤◌, length};
ghost use Rattle.octets.specs.Answer.{outcome_of, Gives};
ghost use Rattle.octets.specs.Pass.{Roomy, Passed};
ghost use Rattle.sheet.specs.Sheet.{mark_field};
ghost use Rattle.sheet.specs.Shown.{shown_result};
ghost use Rattle.sheet.specs.Readable.{max_file};
ghost use Rattle.dvi.specs.Mark.{mark_of};
ghost use Rattle.dvi.specs.File.{read_dvi};
ghost use Rattle.dvi.specs.Sheet.{sheet_result};
ghost use Rattle.dvi_brackets.specs.Reading.{InFile, RoomyRun};
ghost use Rattle.dvi_plain.specs.Page.{bop_bytes, page_run, PageDone};

use dvi::mark::Mark;
use dvi::{mark, opcode};
use dvi_brackets::Run;
use dvi_page::page::Page;
use dvi_page::stack;
use dvi_step::Stepped;
use octets::pass::TwoPass;
use octets::refusal::{Answer, Reason, Refusal};
use octets::{field, pass};

// How a page ends that is not refused: the place after its EOP, the place in the sheet and the marks so far.
#[derive(Clone, Copy)]
struct PageEnd {
    at: usize,
    to: usize,
    count: u32,
}

// The page whose BOP stands at `at` and shows m: its mark, and the run of its commands.
fn read_page(
    dvi: &[u8],
    widths: &[i32],
    out: &mut [u8],
    at: usize,
    m: Mark,
    to: usize,
    count: u32,
    writing: bool,
) -> Result<PageEnd, Refusal>
    requires bop_bytes_in_bounds { (at + bop_bytes ≤ length dvi.now) × ((length dvi.now ≤ max_file) × InFile at to count) }
    requires roomy_run { writing ≡ true → RoomyRun (page_run widths.now dvi.now at) (to + length (mark_field (mark_of m))) (length out.old) }
    ensures { PageDone at (page_run widths.now dvi.now at) (mark_of m) writing out.old to count result out.new }
{
    let first = mark::show_mark(out, to, m, writing);
    let start = at + opcode::BOP_LENGTH;
    let body = &dvi[start..];
    let r = dvi_brackets::read_run(
        body,
        widths,
        out,
        start,
        stack::MAX_STACK,
        Page::new(),
        first,
        count + 1,
        writing,
    );
    match r {
        Run::Fault(reason, place) => Err(reason.at(place)),
        Run::Pop(_, n, _, _) => Err(Reason::StackEmpty.at(start + n)),
        Run::Eop(n, to, count) => Ok(PageEnd {
            at: start + n + 1,
            to,
            count,
        }),
    }
}

// One pass over a file within the limit. It writes the sheet, if writing.
fn pass(dvi: &[u8], widths: &[i32], out: &mut [u8], writing: bool) -> Answer
    requires dvi_len_bound { length dvi.now ≤ max_file }
    requires roomy { writing ≡ true → Roomy (shown_result (read_dvi widths.now dvi.now)) (length out.old) }
    ensures { Passed (shown_result (read_dvi widths.now dvi.now)) writing out.old result out.new }
{
    let mut last: i32 = -1;
    let mut at: usize = 0;
    let mut to: usize = 0;
    let mut count: u32 = 0;
    // A turn takes as many bytes as its page has, which no iterator over bytes does.
    while at < dvi.len() {
        match dvi_step::between_pages(dvi, at, last) {
            Stepped::Refuse(reason) => {
                return Err(reason.at(at));
            }
            // Between pages a command that goes on is BOP, which shows a mark.
            Stepped::Go(_, _) => {
                return Err(Reason::BadCommand.at(at));
            }
            Stepped::Show(_, m, _) => {
                let end = read_page(dvi, widths, out, at, m, to, count, writing)?;
                last = at as i32;
                at = end.at;
                to = end.to;
                count = end.count;
            }
            Stepped::Finish => {
                field::show_end(out, to, count, writing);
                return Ok(to + field::END_FIELD);
            }
        }
    }
    Err(Reason::DviEndsEarly.at(at))
}

// What a call is lent to read, a file within the limit.
#[derive(Clone, Copy)]
struct Input<'a> {
    dvi: &'a [u8],
    widths: &'a [i32],
    ghost within: { length dvi.now ≤ max_file },
}

impl TwoPass for Input<'_> {
    ghost made = { λ input. shown_result (read_dvi input.widths.now input.dvi.now) };

    fn pass(&self, out: &mut [u8], writing: bool) -> Answer {
        pass(self.dvi, self.widths, out, writing)
    }
}

// Reads a DVI file into the lent sheet buffer.
pub fn read_dvi_plain(dvi: &[u8], widths: &[i32], sheet: &mut [u8]) -> Answer
    ensures { Gives (outcome_of result) (sheet_result dvi.now widths.now) sheet.old sheet.new }
{
    sheet::call_refusal(dvi.len(), widths.len() % sheet::FONT_CHARS == 0)?;
    pass::in_two_passes(&Input { dvi, widths }, sheet, Reason::NoSheetRoom)
}
