// Fields: one tag byte, a two-byte length, a body (document 01, "Galley").
ghost use Rattle.std.specs.Prelude.{◌≡◌, true, ◌∷◌, ◌+◌, ◌≤◌, length};
ghost use Rattle.octets.specs.Octets.{bytes};
ghost use Rattle.octets.specs.Field.{end_field, starts_field, starts_end};
ghost use Rattle.octets.specs.Write.{Wrote, put_if};

use crate::number;

// A tag and a length.
pub const HEAD: usize = 3;

pub const END_TAG: u8 = 2;

pub const END_LENGTH: u32 = 4;

// The bytes of a whole End.
pub const END_FIELD: usize = HEAD + END_LENGTH as usize;

// Whether s starts with a whole field of this tag and this length.
pub fn starts_field(s: &[u8], tag: u8, len: u32) -> bool
    ensures { result ≡ starts_field tag len s.now }
{
    if s.len() < HEAD + len as usize {
        return false;
    }
    if s[0] != tag {
        return false;
    }
    number::nat2_at(s, 1) == len
}

// Whether s starts with a whole End that counts `count`.
pub fn starts_end(s: &[u8], count: usize) -> bool
    ensures { result ≡ starts_end count s.now }
{
    if starts_field(s, END_TAG, END_LENGTH) {
        number::nat4_at(s, HEAD) as usize == count
    } else {
        false
    }
}

// Writes a field's tag and length.
pub fn put_head(out: &mut [u8], at: usize, tag: u8, len: u32) -> usize
    requires { at + 3 ≤ length out.old }
    ensures { Wrote out.old at (tag ∷ bytes 2 len) out.new result }
{
    let next = number::put_byte(out, at, tag);
    number::put_nat2(out, next, len)
}

// Writes an End.
pub fn put_end(out: &mut [u8], at: usize, count: u32) -> usize
    requires { at + 7 ≤ length out.old }
    ensures { Wrote out.old at (end_field count) out.new result }
{
    let next = put_head(out, at, END_TAG, END_LENGTH);
    number::put_nat4(out, next, count)
}

// Writes an End, if writing.
pub fn show_end(out: &mut [u8], to: usize, count: u32, writing: bool)
    requires { writing ≡ true → to + 7 ≤ length out.old }
    ensures { out.new ≡ put_if writing out.old to (end_field count) }
{
    if writing {
        put_end(out, to, count);
    }
}
