// Codes, written into the tape's buffer or only counted. Each function gives the place after its codes.
ghost use Rattle.std.specs.Prelude.{◌≡◌, [], ◌∷◌, ◌<◌, ◌≤◌, pos, ◌≤ℤ◌, replicate};
ghost use Rattle.punch_codes.specs.Codes.{switch_codes, size_codes, remainder_codes, distance_codes, motion_codes};
ghost use Rattle.octets.specs.Write.{Put};
ghost use Rattle.octets.specs.Space.{Space};

use crate::axis::Axis;

// The code of the first size; the others follow.
const FIRST_SIZE: u8 = 0x50;

pub fn put_code(writing: bool, out: &mut [u8], at: usize, b: u8) -> usize
    requires { Space writing out.old at (b ∷ []) }
    ensures { Put writing out.old at (b ∷ []) out.new result }
{
    if writing {
        out[at] = b;
    }
    at + 1
}

// The same code n times.
fn put_run(writing: bool, out: &mut [u8], at: usize, n: usize, b: u8) -> usize
    requires { Space writing out.old at (replicate n b) }
    ensures { Put writing out.old at (replicate n b) out.new result }
{
    if writing {
        out[at..at + n].fill(b);
    }
    at + n
}

// The code of a switch, where it is to stand otherwise.
pub fn put_switch(
    writing: bool,
    out: &mut [u8],
    at: usize,
    off: u8,
    on: u8,
    old: bool,
    new: bool,
) -> usize
    requires { Space writing out.old at (switch_codes off on old new) }
    ensures { Put writing out.old at (switch_codes off on old new) out.new result }
{
    if old == new {
        at
    } else if new {
        put_code(writing, out, at, on)
    } else {
        put_code(writing, out, at, off)
    }
}

// The code of a size, where it differs.
pub fn put_size(writing: bool, out: &mut [u8], at: usize, old: u8, new: u8) -> usize
    requires { (new < 15) × Space writing out.old at (size_codes old new) }
    ensures { Put writing out.old at (size_codes old new) out.new result }
{
    if old == new {
        at
    } else {
        put_code(writing, out, at, FIRST_SIZE + new)
    }
}

impl Axis {
    // The remainder of a distance, if it is not 0.
    fn put_remainder(self, writing: bool, out: &mut [u8], at: usize, n: u8) -> usize
        requires { (n ≤ self.longest) × Space writing out.old at (remainder_codes self.longest self.code n) }
        ensures { Put writing out.old at (remainder_codes self.longest self.code n) out.new result }
    {
        if n == 0 {
            at
        } else {
            put_code(writing, out, at, self.code + (self.longest - n))
        }
    }

    // A distance: the longest motions, and the remainder.
    fn put_distance(self, writing: bool, out: &mut [u8], at: usize, n: u32) -> usize
        requires { Space writing out.old at (distance_codes self.longest self.code n) }
        ensures { Put writing out.old at (distance_codes self.longest self.code n) out.new result }
    {
        let each = self.longest as u32;
        if n < each {
            return self.put_remainder(writing, out, at, n as u8);
        }
        let to = put_run(writing, out, at, (n / each) as usize, self.code);
        self.put_remainder(writing, out, to, (n % each) as u8)
    }

    // A motion from place to place, in the direction `new` after `old`.
    pub fn put_motion(
        self,
        writing: bool,
        out: &mut [u8],
        at: usize,
        old: bool,
        new: bool,
        from: i32,
        to: i32,
    ) -> usize
        requires { ((pos 0 ≤ℤ from) × (pos 0 ≤ℤ to)) × Space writing out.old at (motion_codes self old new from to) }
        ensures { Put writing out.old at (motion_codes self old new from to) out.new result }
    {
        let next = put_switch(writing, out, at, self.forward, self.backward, old, new);
        self.put_distance(writing, out, next, to.abs_diff(from))
    }
}
