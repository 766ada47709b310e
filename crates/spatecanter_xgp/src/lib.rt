// A file of XGP character mode read into a sheet, for C callers.
#![tactic(auto)]

ghost use Rattle.octets.specs.Answer.{GivesNumbers};
ghost use Rattle.xgp.specs.Sheet.{xgp_result};

use octets::refusal;

// Reads a file of XGP character mode into a sheet.
#[unsafe(no_mangle)]
pub extern "C" fn sp_read_xgp(
    file: &[u8],
    spacing: u16,
    widths: &[i32],
    sheet: &mut [u8],
    answer: &mut [usize; 3],
)
    ensures { GivesNumbers answer.new (xgp_result file.now spacing widths.now) sheet.old sheet.new }
{
    *answer = refusal::numbers(xgp_reader::read_xgp(file, spacing, widths, sheet));
}
