// Reads a tape on standard input and lists its galley (document 01, "Proof sheet").
#![tactic(auto)]

ghost use Rattle.std.specs.Prelude.{◌≤◌, length, IfOk};

use galley_check::galley::CheckedGalley;
use galley_file::character::Character;
use galley_file::item::Item;
use galley_file::{font, form};
use octets::field;
use octets::refusal::Refusal;
use std::io::{self, Read};

// The 8-font machine.
const MACHINE: u32 = 8;

// The longest tape that is read.
const MAX_TAPE: usize = 2_048;

// A line: x, height, font, size and character.
fn write_character(rt: &impl Print, c: Character) -> io::Result<()> {
    println!(rt;
        "{} {} {} {} {}",
        c.x.0,
        c.height.0,
        font::font_of(c.font),
        font::point_size(c.font),
        c.code
    )
}

// A line for a character, or `cut`.
fn write_item(rt: &impl Print, i: Item) -> io::Result<()> {
    match i {
        Item::Placed(c) => write_character(rt, c),
        Item::Cut => println!(rt; "cut"),
    }
}

fn write_refusal(rt: &impl Print, refusal: Refusal) -> io::Result<()> {
    println!(rt; "refused {} at {}", refusal.reason.number(), refusal.place)
}

// A heading, the items, and the number of characters.
fn write_items(rt: &impl Print, galley: CheckedGalley<'_>) -> io::Result<()> {
    println!(rt; "x y font size char")?;
    for item in galley.items() {
        write_item(rt, item)?;
    }
    println!(rt; "{} glyphs", galley.count)
}

// A galley that a tape gave: the check accepts it, and counts its characters.
fn write_galley(rt: &impl Print, g: &[u8]) -> io::Result<()> {
    match CheckedGalley::of(g) {
        Ok(galley) => write_items(rt, galley),
        Err(refusal) => write_refusal(rt, refusal),
    }
}

// Reads a tape into the lent buffer, and lists it or says why not.
fn list(rt: &impl Print, tape: &[u8], galley: &mut [u8]) -> io::Result<()> {
    match tape::read_tape(tape, MACHINE, galley) {
        Ok(length) => write_galley(rt, &galley[..length]),
        Err(refusal) => write_refusal(rt, refusal),
    }
}

// Reads until the buffer is full or the input ends: how many bytes there are.
fn read_full<R: Read>(input: &mut R, buffer: &mut [u8]) -> io::Result<usize>
    ensures within { IfOk result (λ n. n ≤ length buffer.old) }
{
    let mut n: usize = 0;
    // A read gives as many bytes as it likes, so no iterator counts them; the standard library's way to the end of an input keeps it on a heap.
    while n < buffer.len() {
        let more = input.read(&mut buffer[n..])?;
        if more == 0 {
            return Ok(n);
        }
        n += more;
    }
    Ok(n)
}

fn main(rt: HostRuntime) -> io::Result<()> {
    let mut tape = [0u8; MAX_TAPE + 1];
    let n = read_full(&mut rt.reader(), &mut tape)?;
    if MAX_TAPE < n {
        return println!(rt; "too long");
    }
    // Room for a character for each byte, and End.
    let mut galley = [0u8; form::NEW_FIELD * MAX_TAPE + field::END_FIELD];
    list(&rt, &tape[..n], &mut galley)
}
