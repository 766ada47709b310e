// The files of the second edition, read back into galleys (document 02, "The second edition of DVI").
#![tactic(auto)]

ghost use Rattle.std.specs.Prelude.{[], ◌≤◌, ◌<◌, length};
ghost use Rattle.octets.specs.Answer.{outcome_of, Gives};
ghost use Rattle.octets.specs.Field.{end_field};
ghost use Rattle.octets.specs.PutIfRoom.{PutIfRoom};
ghost use Rattle.galley_file.specs.declared.form.Form.TheVariants.{New};
ghost use Rattle.galley_file.specs.Item.{item_field};
ghost use Rattle.dvi2_reading.specs.Reading.{in_page, new_page_state, read2_result};
ghost use Rattle.dvi2_reading.specs.Standing.{Standing};
ghost use Rattle.dvi2_reader.specs.Pass.{Passed};

use dvi2_close::expect;
use dvi2_close::expect::NotOurs;
use dvi2_turn::tally::Tally;
use dvi2_turn::turn;
use dvi2_turn::turn::Turn;
use galley_file::form::Form;
use galley_file::item;
use galley_file::item::Item;
use octets::field;
use octets::refusal::{Answer, Reason};

pub const MAX_DVI2: usize = 67_108_864;

// Writes an item's field, if it has room.
fn put_item(out: &mut [u8], at: usize, i: Item) -> usize
    requires { at < 4294967296 }
    ensures { PutIfRoom out.old at (item_field New i) out.new result }
{
    let size = item::item_size(Form::New, i);
    if out.len() < at + size {
        at + size
    } else {
        item::put_item(Form::New, out, at, i)
    }
}

// Writes End, if it has room.
fn put_end(out: &mut [u8], at: usize, count: usize) -> usize
    requires { (at < 4294967296) × (count < 4294967296) }
    ensures { PutIfRoom out.old at (end_field count) out.new result }
{
    if out.len() < at + field::END_FIELD {
        at + field::END_FIELD
    } else {
        field::put_end(out, at, count as u32)
    }
}

// One pass over a file whose first page starts at `first`: writes the galley as far as there is room; gives its length.
fn pass(dvi: &[u8], first: usize, out: &mut [u8]) -> Result<usize, NotOurs>
    requires { (length dvi.now ≤ 67108864) × Standing dvi.now (in_page (new_page_state [])) first }
    ensures { Passed dvi.now out.old out.new result }
{
    let mut at = first;
    let mut h = turn::new_page();
    let mut t = Tally::none();
    let mut to: usize = 0;
    // A turn takes as many bytes as its commands have, so the place is no counter.
    while at < dvi.len() {
        match turn::take_turn(dvi, at, h, t)? {
            Turn::Whole => return Ok(put_end(out, to, t.characters)),
            Turn::On(g, next) => {
                h = g;
                at = next;
            }
            Turn::Set(i, g, next) => {
                to = put_item(out, to, i);
                t = t.with_item(i, next);
                h = g;
                at = next;
            }
        }
    }
    Err(NotOurs { place: dvi.len() })
}

// Reads a file whose first page starts at `first` into the lent galley buffer, if there is room.
fn read_pages(dvi: &[u8], first: usize, galley: &mut [u8]) -> Answer
    requires { (length dvi.now ≤ 67108864) × Standing dvi.now (in_page (new_page_state [])) first }
    ensures { Gives (outcome_of result) (read2_result dvi.now) galley.old galley.new }
{
    let mut scrap = [0u8; 1];
    let needed = pass(dvi, first, &mut scrap)?;
    if galley.len() < needed {
        return Err(Reason::NoGalleyRoom.at(needed));
    }
    pass(dvi, first, galley)?;
    Ok(needed)
}

// Reads a file of the second edition into the lent galley buffer.
pub fn read_dvi2(dvi: &[u8], galley: &mut [u8]) -> Answer
    ensures { Gives (outcome_of result) (read2_result dvi.now) galley.old galley.new }
{
    if MAX_DVI2 < dvi.len() {
        return Err(Reason::FileTooLong.at(0));
    }
    let first = expect::head(dvi)?;
    read_pages(dvi, first, galley)
}
