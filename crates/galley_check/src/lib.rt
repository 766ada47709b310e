// Galleys (document 01, "Galley"): the check, with or without a limit of heights, and reading a character back.
#![tactic(auto)]

ghost use Rattle.std.specs.Prelude.{◌≡◌, ◌+◌, ◌*◌, ◌≤◌, length};
ghost use Rattle.octets.specs.Answer.{outcome_of};
ghost use Rattle.galley_file.specs.declared.form.Form.TheVariants.{New};
ghost use Rattle.galley_file.specs.Character.{is_character};
ghost use Rattle.galley_file.specs.Form.{max_galley};
ghost use Rattle.galley_file.specs.Galley.{reading, read_end, leading};
ghost use Rattle.galley_check.specs.Span.{SpanOf, run_number};
ghost use Rattle.galley_file.specs.Outcome.{count_outcome, check_outcome};
ghost use Rattle.galley_check.specs.Found.{found_of, read_back_outcome};
ghost use Rattle.galley_check.specs.Low.{low_outcome};

pub mod galley;

use galley::{CheckedGalley, LowGalley};
use galley_file::character::Character;
use galley_file::form::Form;
use galley_file::{character, form, item};
use octets::field;
use octets::refusal::{Answer, Reason, Refusal};

// A galley has at most 1,024 runs of 1,024 items.
const RUN: usize = 1_024;

const RUNS: usize = 1_024;

// A cut in the number of a run; a character is 1.
const CUT: usize = 2_048;

// The characters and the cuts of some fields.
#[derive(Clone, Copy)]
pub struct Span {
    pub characters: usize,
    pub cuts: usize,
}

// Whether s starts with the whole field of a valid character. Each form has a test of its own, in which its numbers are constants: with one
// test for both the check takes 30% more.
fn starts_character(f: Form, s: &[u8]) -> bool
    ensures { result ≡ is_character f s.now }
{
    match f {
        Form::Old => character::is_character(Form::Old, s),
        Form::New => character::is_character(Form::New, s),
    }
}

// The items that s starts with, at most `room`, as one number. The part after a field goes to this function again.
fn leading_items(f: Form, s: &[u8], room: usize) -> usize
    requires { room ≤ 1024 }
    ensures { result ≡ run_number (leading f room s.now) }
{
    if room == 0 {
        return 0;
    }
    if starts_character(f, s) {
        let size = form::character_size(f);
        return leading_items(f, &s[size..], room - 1) + 1;
    }
    if item::is_cut(s) {
        return leading_items(f, &s[item::CUT_FIELD..], room - 1) + CUT;
    }
    0
}

// The items of the run that s starts with.
fn leading_run(f: Form, s: &[u8]) -> Span
    ensures { SpanOf result (leading f 1024 s.now) }
{
    let run = leading_items(f, s, RUN);
    Span {
        characters: run % CUT,
        cuts: run / CUT,
    }
}

// Checks s, in which no item comes next, and which starts at `at` and follows `count` characters.
fn check_end(s: &[u8], at: usize, count: usize) -> Answer
    requires { at + length s.now ≤ max_galley New }
    ensures { outcome_of result ≡ count_outcome count (read_end s.now at count) }
{
    if field::starts_end(s, count) {
        if s.len() == field::END_FIELD {
            return Ok(count);
        }
        return Err(Reason::GalleyMalformed.at(at + field::END_FIELD));
    }
    Err(Reason::GalleyMalformed.at(at))
}

// Checks the run of fields s, which starts at `at`, follows `count` characters and may have as many runs of RUN items. Such runs
// bound how deep the calls go; the part after a full one goes to this function again.
fn check_fields(f: Form, s: &[u8], at: usize, count: usize, runs: usize) -> Answer
    requires { (at + length s.now ≤ max_galley New) × ((count ≤ at) × (runs ≤ 1024)) }
    ensures { outcome_of result ≡ count_outcome count (reading f (1024 * runs) s.now at count) }
{
    if runs == 0 {
        return check_end(s, at, count);
    }
    let run = leading_run(f, s);
    let start = form::character_size(f) * run.characters + item::CUT_FIELD * run.cuts;
    let rest = &s[start..];
    if run.characters + run.cuts == RUN {
        return check_fields(f, rest, at + start, count + run.characters, runs - 1);
    }
    check_end(rest, at + start, count + run.characters)
}

// The number of characters of the galley g of a form, or the refusal of a galley that is too long or malformed.
pub fn check_form(f: Form, g: &[u8]) -> Answer
    ensures { outcome_of result ≡ check_outcome f g.now }
{
    if form::max_galley(f) < g.len() {
        return Err(Reason::GalleyTooLong.at(0));
    }
    check_fields(f, g, 0, 0, RUNS)
}

// The check of a galley of the new form.
pub fn check_galley(g: &[u8]) -> Answer
    ensures { outcome_of result ≡ check_outcome New g.now }
{
    check_form(Form::New, g)
}

// The number of characters of the galley g, or the refusal of a galley that is too long, malformed or too high for a DVI file.
pub fn check_low(g: &[u8]) -> Answer
    ensures { outcome_of result ≡ low_outcome g.now }
{
    Ok(LowGalley::of(g)?.count)
}

// Character n of the galley g, counted from 0.
pub fn read_back(g: &[u8], n: usize) -> Result<Character, Refusal>
    ensures { found_of result ≡ read_back_outcome g.now n }
{
    let galley = CheckedGalley::of(g)?;
    if galley.count <= n {
        return Err(Reason::NoCharacter.at(0));
    }
    // Without cuts each character has its place.
    if g.len() == form::NEW_FIELD * galley.count + field::END_FIELD {
        return Ok(character::character_at(Form::New, g, n * form::NEW_FIELD));
    }
    galley.character(n)
}
