// The operations for C and Rust callers: each answer goes into an array that the caller lends.
#![tactic(auto)]

ghost use Rattle.galley_file.specs.declared.form.Form.TheVariants.{New};
ghost use Rattle.std.specs.Prelude.{◌≡◌};
ghost use Rattle.octets.specs.Answer.{numbers_of, GivesNumbers};
ghost use Rattle.galley_file.specs.Outcome.{check_outcome};
ghost use Rattle.galley_check.specs.Found.{found_of, outcome_of_found, read_back_outcome};
ghost use Rattle.tape.specs.Tape.{tape_result};
ghost use Rattle.conversion.specs.Conversion.{new_result, old_result};
ghost use Rattle.dvi.specs.Sheet.{sheet_result};
ghost use Rattle.dvi_writer.specs.Result.{dvi_result};
ghost use Rattle.reprint.specs.Reprint.{ReprintsNumbers};
ghost use Rattle.spatecanter.specs.Numbers.{found_numbers};

use galley_file::character::Character;
use octets::refusal;
use octets::refusal::Refusal;

// Number, place and length of reading back, which writes nothing.
fn found_numbers(found: Result<Character, Refusal>) -> [usize; 3]
    ensures { result ≡ numbers_of (outcome_of_found (found_of found)) }
{
    refusal::numbers(found.map(|_| 0))
}

// X, height, font number and character, all 0 in a refusal.
fn found_character(found: Result<Character, Refusal>) -> [i32; 4]
    ensures { result ≡ found_numbers (found_of found) }
{
    match found {
        Ok(c) => [c.x.0, c.height.0, i32::from(c.font), i32::from(c.code)],
        Err(_) => [0, 0, 0, 0],
    }
}

// Reads a tape of the machine with so many fonts, 4 or 8, into a galley.
#[unsafe(no_mangle)]
pub extern "C" fn sp_read_tape(
    tape: &[u8],
    machine: u32,
    galley: &mut [u8],
    answer: &mut [usize; 3],
)
    ensures { GivesNumbers answer.new (tape_result tape.now machine) galley.old galley.new }
{
    *answer = refusal::numbers(tape::read_tape(tape, machine, galley));
}

// Checks a galley.
#[unsafe(no_mangle)]
pub extern "C" fn sp_check_galley(galley: &[u8], answer: &mut [usize; 3])
    ensures { answer.new ≡ numbers_of (check_outcome New galley.now) }
{
    *answer = refusal::numbers(galley_check::check_galley(galley));
}

// Reads character n of a galley back.
#[unsafe(no_mangle)]
pub extern "C" fn sp_read_back(
    galley: &[u8],
    n: usize,
    answer: &mut [usize; 3],
    character: &mut [i32; 4],
)
    ensures { (answer.new ≡ numbers_of (outcome_of_found (read_back_outcome galley.now n))) × (character.new ≡ found_numbers (read_back_outcome galley.now n)) }
{
    let found = galley_check::read_back(galley, n);
    *answer = found_numbers(found);
    *character = found_character(found);
}

// Makes an old galley new.
#[unsafe(no_mangle)]
pub extern "C" fn sp_galley_to_new(old: &[u8], new: &mut [u8], answer: &mut [usize; 3])
    ensures { GivesNumbers answer.new (new_result old.now) new.old new.new }
{
    *answer = refusal::numbers(conversion::galley_to_new(old, new));
}

// Makes a new galley old.
#[unsafe(no_mangle)]
pub extern "C" fn sp_galley_to_old(new: &[u8], old: &mut [u8], answer: &mut [usize; 3])
    ensures { GivesNumbers answer.new (old_result new.now) old.old old.new }
{
    *answer = refusal::numbers(conversion::galley_to_old(new, old));
}

// Writes a galley's DVI file.
#[unsafe(no_mangle)]
pub extern "C" fn sp_write_dvi(galley: &[u8], dvi: &mut [u8], answer: &mut [usize; 3])
    ensures { GivesNumbers answer.new (dvi_result galley.now) dvi.old dvi.new }
{
    *answer = refusal::numbers(dvi_writer::write_dvi(galley, dvi));
}

// Reads a DVI file into a sheet.
#[unsafe(no_mangle)]
pub extern "C" fn sp_read_dvi(dvi: &[u8], widths: &[i32], sheet: &mut [u8], answer: &mut [usize; 3])
    ensures { GivesNumbers answer.new (sheet_result dvi.now widths.now) sheet.old sheet.new }
{
    *answer = refusal::numbers(dvi_reader::read_dvi(dvi, widths, sheet));
}

// Writes a galley's DVI file and its sheet, or neither; the answer has both lengths.
#[unsafe(no_mangle)]
pub extern "C" fn sp_reprint(
    galley: &[u8],
    widths: &[i32],
    dvi: &mut [u8],
    sheet: &mut [u8],
    answer: &mut [usize; 4],
)
    ensures { ReprintsNumbers answer.new galley.now widths.now dvi.old dvi.new sheet.old sheet.new }
{
    *answer = reprint::numbers(reprint::reprint(galley, widths, dvi, sheet));
}
