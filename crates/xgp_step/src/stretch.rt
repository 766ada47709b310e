// Stretches of ordinary characters, the commonest codes, without the whole step.
ghost use Rattle.std.specs.Prelude.{◌≡◌, true, ◌+◌, ◌*◌, ◌≤◌, length};
ghost use Rattle.sheet.specs.Readable.{max_file};
ghost use Rattle.xgp_code.specs.Measure.{in_dots};
ghost use Rattle.xgp.specs.State.{y_in};
ghost use Rattle.xgp_step.specs.Stretch.{Stretched, Room};

use octets::reach;
use xgp::state;
use xgp::state::State;
use xgp_code::measure::{Dots, Lines};

// 16 octal: from it up to ESCAPE every byte is an ordinary character.
const FIRST_ORDINARY: u8 = 0x0E;

// Where a stretch ends: the places in the file and in the sheet, and x.
#[derive(Clone, Copy)]
pub struct Stretch {
    pub next: usize,
    pub to: usize,
    pub x: Dots,
}

// The ordinary characters from `from` on, at y, on a page whose field was given.
fn set_stretch(
    file: &[u8],
    spacing: u16,
    widths: &[i32],
    out: &mut [u8],
    from: usize,
    first: usize,
    s: State,
    y: Lines,
    writing: bool,
) -> Stretch
    requires from_in_bounds { ((from ≤ length file.now) × (length file.now ≤ max_file)) × ((first ≤ 20 * from + 20) × ((s.started ≡ true) × (y.0 ≡ y_in s))) }
    requires room { writing ≡ true → Room widths.now spacing file.now s from first (length out.old) }
    ensures { Stretched widths.now spacing file.now s from first writing out.old out.new result }
{
    let mut x = s.x.0;
    let mut at = from;
    let mut to = first;
    // An index, and no `for` over the bytes: the place where the stretch ends is part of what it gives.
    while at < file.len() {
        let b = file[at];
        if b < FIRST_ORDINARY || xgp_code::ESCAPE <= b {
            break;
        }
        let Some(v) = reach::sum(x, state::width_of(widths, s.font, b)) else {
            break;
        };
        to = sheet::show_char(out, to, x, y.0, i32::from(s.font), b, writing);
        x = v;
        at += 1;
    }
    Stretch {
        next: at,
        to,
        x: Dots(x),
    }
}

// The same, where the page's field was given and y fits; else nothing.
pub fn set_run(
    file: &[u8],
    spacing: u16,
    widths: &[i32],
    out: &mut [u8],
    from: usize,
    first: usize,
    s: State,
    writing: bool,
) -> Stretch
    requires from_in_bounds { ((from ≤ length file.now) × (length file.now ≤ max_file)) × (first ≤ 20 * from + 20) }
    requires room { writing ≡ true → Room widths.now spacing file.now s from first (length out.old) }
    ensures { Stretched widths.now spacing file.now s from first writing out.old out.new result }
{
    if s.started
        && let Some(y) = s.y_in()
    {
        return set_stretch(
            file,
            spacing,
            widths,
            out,
            from,
            first,
            s,
            Lines(y),
            writing,
        );
    }
    Stretch {
        next: from,
        to: first,
        x: s.x,
    }
}
