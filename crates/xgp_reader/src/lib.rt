// XGP character mode (003), read into sheets with a lent table of widths (document 02, "The XGP drawer").
#![tactic(auto)]

ghost use Rattle.std.specs.Prelude.{◌≡◌, true, ◌≤◌, length};
ghost use Rattle.octets.specs.Answer.{outcome_of, Gives};
ghost use Rattle.octets.specs.Pass.{Roomy, Passed};
ghost use Rattle.sheet.specs.Shown.{shown_result};
ghost use Rattle.sheet.specs.Readable.{max_file};
ghost use Rattle.xgp.specs.File.{read_xgp};
ghost use Rattle.xgp.specs.Sheet.{any_negative, xgp_result};

use octets::pass::TwoPass;
use octets::refusal::{Answer, Reason};
use octets::{field, pass};
use xgp::state::{Effect, State};
use xgp_step::{fields, stretch};

// The widths of four fonts.
pub const FOUR_FONTS: usize = 4 * sheet::FONT_CHARS;

// Whether a width is less than 0.
fn has_negative(widths: &[i32]) -> bool
    ensures { result ≡ any_negative widths.now }
{
    widths.iter().any(|w| *w < 0)
}

// One pass over a file within the limit. It writes the sheet, if writing.
fn pass(file: &[u8], spacing: u16, widths: &[i32], out: &mut [u8], writing: bool) -> Answer
    requires file_len_bound { length file.now ≤ max_file }
    requires roomy { writing ≡ true → Roomy (shown_result (read_xgp widths.now spacing file.now)) (length out.old) }
    ensures { Passed (shown_result (read_xgp widths.now spacing file.now)) writing out.old result out.new }
{
    let mut s = State::start(spacing);
    let mut at = 0;
    let mut to = 0;
    let mut count = 0;
    // An index, and no iterator: a turn reads a stretch and a code, each of as many bytes as it says.
    while at < file.len() {
        let q = stretch::set_run(file, spacing, widths, out, at, to, s, writing);
        count += (q.next - at) as u32;
        to = q.to;
        s.x = q.x;
        at = q.next;
        if at < file.len() {
            let found = xgp_step::step(file, spacing, widths, at, s);
            let stepped = found.map_err(|reason| reason.at(at))?;
            at = at + 1 + stepped.after;
            match stepped.effect {
                Effect::Moved(t) => s = t,
                Effect::Set(t, y, c) => {
                    to = fields::show_set(out, to, s, y, c, writing);
                    count += fields::number(s);
                    s = t;
                }
            }
        }
    }
    field::show_end(out, to, count, writing);
    Ok(to + field::END_FIELD)
}

// What a call is lent to read, a file within the limit.
#[derive(Clone, Copy)]
struct Input<'a> {
    file: &'a [u8],
    spacing: u16,
    widths: &'a [i32],
    ghost within: { length file.now ≤ max_file },
}

impl TwoPass for Input<'_> {
    ghost made = { λ input. shown_result (read_xgp input.widths.now input.spacing input.file.now) };

    fn pass(&self, out: &mut [u8], writing: bool) -> Answer {
        pass(self.file, self.spacing, self.widths, out, writing)
    }
}

// Reads a file of XGP character mode into the lent sheet buffer.
pub fn read_xgp(file: &[u8], spacing: u16, widths: &[i32], sheet: &mut [u8]) -> Answer
    ensures { Gives (outcome_of result) (xgp_result file.now spacing widths.now) sheet.old sheet.new }
{
    sheet::call_refusal(file.len(), widths.len() == FOUR_FONTS)?;
    if has_negative(widths) {
        return Err(Reason::NegativeWidth.at(0));
    }
    let input = Input {
        file,
        spacing,
        widths,
    };
    pass::in_two_passes(&input, sheet, Reason::NoSheetRoom)
}
