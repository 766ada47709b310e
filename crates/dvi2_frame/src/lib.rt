// The commands around the pages of a file of the second edition (document 02, "The second edition of DVI"): the preamble, bop, post and post_post.
#![tactic(auto)]

ghost use Rattle.std.specs.Prelude.{◌≡◌, ◌++◌, ◌+◌, ◌%◌, ◌≤◌, ◌<◌, length};
ghost use Rattle.octets.specs.Octets.{bytes, signed_bytes};
ghost use Rattle.octets.specs.Write.{Wrote};
ghost use Rattle.octets.specs.PutIfRoom.{PutIfRoom};
ghost use Rattle.dvi2.specs.Writer.{unit_bytes, preamble_bytes, bop_bytes};
ghost use Rattle.dvi2_frame.specs.Frame.{Ranged, post_with, post_of, post_post_of};

use dvi2::opcode;
use extents::Extents;
use octets::number;

const IDENTIFICATION: u8 = 2;

const NUMERATOR: u32 = 254_000;

const DENOMINATOR: u32 = 432;

const MAGNIFICATION: u32 = 1_000;

// The bytes of each command.
pub const PRE_LENGTH: usize = 15;

pub const BOP_LENGTH: usize = 45;

// The bytes of the nine counts that are not used.
const ZEROS: usize = 36;

const POST_LENGTH: usize = 29;

const POSTPOST_LENGTH: usize = 6;

// Writes the unit: numerator, denominator and magnification.
fn put_unit(out: &mut [u8], at: usize) -> usize
    requires { at + 12 ≤ length out.old }
    ensures { Wrote out.old at unit_bytes out.new result }
{
    let mut to = number::put_nat4(out, at, NUMERATOR);
    to = number::put_nat4(out, to, DENOMINATOR);
    number::put_nat4(out, to, MAGNIFICATION)
}

// Writes the preamble, with an empty comment.
pub fn put_preamble(out: &mut [u8]) -> usize
    ensures { PutIfRoom out.old 0 preamble_bytes out.new result }
{
    if out.len() < PRE_LENGTH {
        return PRE_LENGTH;
    }
    let mut to = number::put_byte(out, 0, opcode::PRE);
    to = number::put_byte(out, to, IDENTIFICATION);
    to = put_unit(out, to);
    number::put_byte(out, to, 0)
}

// Writes the ten counts of a page: its number, and nine zeros.
fn put_counts(out: &mut [u8], at: usize, page: u32) -> usize
    requires { at + 40 ≤ length out.old }
    ensures { Wrote out.old at (bytes 4 page ++ bytes 36 0) out.new result }
{
    let zeros = number::put_nat4(out, at, page);
    let to = zeros + ZEROS;
    out[zeros..to].fill(0);
    to
}

// Writes bop of a page, with the offset of the page before it.
pub fn put_bop(out: &mut [u8], at: usize, page: u32, previous: i32) -> usize
    requires { at < 4294967296 }
    ensures { PutIfRoom out.old at (bop_bytes page previous) out.new result }
{
    if out.len() < at + BOP_LENGTH {
        return at + BOP_LENGTH;
    }
    let mut to = number::put_byte(out, at, opcode::BOP);
    to = put_counts(out, to, page);
    number::put_signed4(out, to, previous)
}

// Writes height and width of the largest page, the stack's depth, 0, and the number of pages.
fn put_extents(out: &mut [u8], at: usize, height: i32, width: i32, pages: u32) -> usize
    requires { at + 12 ≤ length out.old }
    ensures { Wrote out.old at (signed_bytes 4 height ++ (signed_bytes 4 width ++ (bytes 2 0 ++ bytes 2 (pages % 65536)))) out.new result }
{
    let mut to = number::put_signed4(out, at, height);
    to = number::put_signed4(out, to, width);
    to = number::put_nat2(out, to, 0);
    number::put_nat2(out, to, pages % 65_536)
}

// Writes post, of these numbers.
fn put_numbers(out: &mut [u8], at: usize, last: u32, height: i32, width: i32, pages: u32) -> usize
    requires { at < 4294967296 }
    ensures { PutIfRoom out.old at (post_with last height width pages) out.new result }
{
    if out.len() < at + POST_LENGTH {
        return at + POST_LENGTH;
    }
    let mut to = number::put_byte(out, at, opcode::POST);
    to = number::put_nat4(out, to, last);
    to = put_unit(out, to);
    put_extents(out, to, height, width, pages)
}

// Writes post: the last bop's offset, the extents of all characters, and the number of pages.
pub fn put_post(out: &mut [u8], at: usize, last: u32, e: Extents, pages: u32) -> usize
    requires { (at < 4294967296) × Ranged e }
    ensures { PutIfRoom out.old at (post_of last e pages) out.new result }
{
    let height = measure::PER_QUANTUM * e.height.0;
    let width = e.x.0;
    put_numbers(out, at, last, height, width, pages)
}

// Writes post_post, with the offset of post.
pub fn put_post_post(out: &mut [u8], at: usize, post: u32) -> usize
    requires { at < 4294967296 }
    ensures { PutIfRoom out.old at (post_post_of post) out.new result }
{
    if out.len() < at + POSTPOST_LENGTH {
        return at + POSTPOST_LENGTH;
    }
    let mut to = number::put_byte(out, at, opcode::POSTPOST);
    to = number::put_nat4(out, to, post);
    number::put_byte(out, to, IDENTIFICATION)
}

// The preamble.
pub fn preamble() -> [u8; PRE_LENGTH]
    ensures { result ≡ preamble_bytes }
{
    let mut e = [0u8; PRE_LENGTH];
    put_preamble(&mut e);
    e
}

// bop of a page, with the offset of the page before it.
pub fn bop(page: u32, previous: i32) -> [u8; BOP_LENGTH]
    ensures { result ≡ bop_bytes page previous }
{
    let mut e = [0u8; BOP_LENGTH];
    put_bop(&mut e, 0, page, previous);
    e
}

// post.
pub fn post(last: u32, e: Extents, pages: u32) -> [u8; POST_LENGTH]
    requires { Ranged e }
    ensures { result ≡ post_of last e pages }
{
    let mut c = [0u8; POST_LENGTH];
    put_post(&mut c, 0, last, e, pages);
    c
}

// post_post, with the offset of post.
pub fn post_post(post: u32) -> [u8; POSTPOST_LENGTH]
    ensures { result ≡ post_post_of post }
{
    let mut e = [0u8; POSTPOST_LENGTH];
    put_post_post(&mut e, 0, post);
    e
}
