// A galley made into a DVI file, and the file into a sheet, in one call (document 01, demand 3).
#![tactic(auto)]

ghost use Rattle.galley_file.specs.declared.form.Form.TheVariants.{New};
ghost use Rattle.std.specs.Prelude.{◌≡◌, ◌%◌, length};
ghost use Rattle.octets.specs.Answer.{accepted};
ghost use Rattle.galley_file.specs.Galley.{items_of};
ghost use Rattle.galley_check.specs.Low.{low_outcome};
ghost use Rattle.dvi.specs.Writer.{dvi_file};
ghost use Rattle.sheet.specs.Readable.{font_chars};
ghost use Rattle.reprint.specs.Reprint.{reprint_result, file_outcome_by, sheet_outcome_by, file_outcome, sheet_outcome, both_numbers, sheet_size, GivesBoth, Reprints};

use galley_file::{form, item};
use octets::field;
use octets::refusal::{Numbered, Reason, Refusal};

// The fields of page 1 and of the end.
const OTHER_FIELDS: usize = sheet::PAGE_FIELD + field::END_FIELD;

// The lengths of the sheet and of the file.
#[derive(Clone, Copy, PartialEq, Eq)]
pub struct Lengths {
    pub sheet: usize,
    pub file: usize,
}

// Number, place, the sheet's length and the file's.
pub fn numbers<E: Numbered>(answer: Result<Lengths, E>) -> [usize; 4]
    ensures { result ≡ both_numbers (file_outcome_by E.number_is E.place_is answer) (sheet_outcome_by E.number_is E.place_is answer) }
{
    match answer {
        Ok(lengths) => [0, 0, lengths.sheet, lengths.file],
        Err(refusal) => [refusal.number() as usize, refusal.place(), 0, 0],
    }
}

// The bytes of a checked galley's sheet: what is not of characters in the galley is of cuts.
fn sheet_length(galley: &[u8], count: usize) -> usize
    requires { accepted count ≡ low_outcome galley.now }
    ensures { result ≡ sheet_size (items_of New galley.now) }
{
    let rest = galley.len() - field::END_FIELD - form::NEW_FIELD * count;
    sheet::CHAR_FIELD * count + sheet::PAGE_FIELD * (rest / item::CUT_FIELD) + OTHER_FIELDS
}

// The bytes of a checked galley's file: the writer names them for a buffer that is too short.
fn file_length(galley: &[u8], count: usize) -> usize
    requires { accepted count ≡ low_outcome galley.now }
    ensures { result ≡ length (dvi_file (items_of New galley.now)) }
{
    let mut none = [0u8; 1];
    match dvi_writer::write_dvi(galley, &mut none) {
        Ok(length) => length,
        Err(refusal) => refusal.place,
    }
}

// Reprints a checked galley with a table of whole fonts. Both rooms are known to suffice before the first store; the reader accepts the file, and its
// sheet has the bytes needed.
fn reprint_checked(
    galley: &[u8],
    count: usize,
    widths: &[i32],
    dvi: &mut [u8],
    sheet: &mut [u8],
) -> Result<Lengths, Refusal>
    requires { (accepted count ≡ low_outcome galley.now) × (length widths.now % font_chars ≡ 0) }
    ensures { GivesBoth (file_outcome result) (sheet_outcome result) (reprint_result galley.now widths.now) dvi.old dvi.new sheet.old sheet.new }
{
    let needed = sheet_length(galley, count);
    if sheet.len() < needed {
        let length = file_length(galley, count);
        if dvi.len() < length {
            return Err(Reason::NoDviRoom.at(length));
        }
        return Err(Reason::NoSheetRoom.at(needed));
    }
    let length = dvi_writer::write_dvi(galley, dvi)?;
    let _ = dvi_reader::read_dvi(&dvi[..length], widths, sheet);
    Ok(Lengths {
        sheet: needed,
        file: length,
    })
}

// Writes the galley's file into `dvi` and its sheet into `sheet`, or neither.
pub fn reprint(
    galley: &[u8],
    widths: &[i32],
    dvi: &mut [u8],
    sheet: &mut [u8],
) -> Result<Lengths, Refusal>
    ensures { Reprints (file_outcome result) (sheet_outcome result) galley.now widths.now dvi.old dvi.new sheet.old sheet.new }
{
    if widths.len() % sheet::FONT_CHARS != 0 {
        return Err(Reason::WidthsNotWhole.at(0));
    }
    let count = galley_check::check_low(galley)?;
    reprint_checked(galley, count, widths, dvi, sheet)
}
