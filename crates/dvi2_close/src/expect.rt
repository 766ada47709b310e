// The commands that may stand at a place in one way only.
ghost use Rattle.std.specs.Prelude.{◌≡◌, [], ◌≤◌, length};
ghost use Rattle.octets.specs.declared.refusal.Reason.TheVariants.{NotOurs as not_ours};
ghost use Rattle.dvi2_reading.specs.Reading.{in_page, new_page_state};
ghost use Rattle.dvi2_close.specs.Reading.{expected, ReadsTo};

use dvi2_page::matching;
use dvi2_state::page_state::Wrong;
use octets::refusal::{Reason, Refusal};

// No file of the writer goes on as this one does: at the command that stands there, or at the end of a file that ends too early.
#[derive(Clone, Copy, PartialEq, Eq)]
pub struct NotOurs {
    pub place: usize,
}

impl From<NotOurs> for Refusal {
    ghost from_gives = { λ wrong refusal. refusal ≡ record { reason = not_ours; place = wrong.place } };

    fn from(wrong: NotOurs) -> Refusal {
        Reason::NotOurs.at(wrong.place)
    }
}

// Past the command e, which alone may stand at `at`.
pub fn expect(dvi: &[u8], at: usize, e: &[u8]) -> Result<usize, NotOurs>
    requires { (at ≤ length dvi.now) × (length e.now ≤ 64) }
    ensures { result ≡ expected dvi.now at e.now }
{
    match matching::compare(dvi, at, e) {
        Ok(()) => Ok(at + e.len()),
        Err(Wrong::Short) => Err(NotOurs { place: dvi.len() }),
        Err(Wrong::Bad) => Err(NotOurs { place: at }),
    }
}

// The preamble and the first bop.
pub fn head(dvi: &[u8]) -> Result<usize, NotOurs>
    ensures { ReadsTo dvi.now (in_page (new_page_state [])) result }
{
    let at = expect(dvi, 0, &dvi2_frame::preamble())?;
    expect(dvi, at, &dvi2_frame::bop(1, -1))
}
