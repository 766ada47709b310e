// The codes of XGP character mode (003) that are read, and how they stand in bytes. 003's numbers are octal.
#![tactic(auto)]

pub mod measure;

ghost use Rattle.std.specs.Prelude.{◌≡◌, List, ℕ, ◌+◌, ◌<◌, ◌^◌, drop, IfOk};
ghost use Rattle.octets.specs.Octets.{twos};
ghost use Rattle.xgp_code.specs.Code.{Meaning, further, escaped, operations, columns, adjusts, increments, one_more, after_byte, read, decode as decodeOf};

use measure::{Dots, Lines};
use octets::refusal::Reason;

// The largest byte of seven bits, which is ESCAPE.
pub const ESCAPE: u8 = 127;

#[derive(Clone, Copy)]
pub enum Code {
    Null,
    Char(u8),
    LineFeed,
    FormFeed,
    Return,
    Font(u8),
    Column(Dots),
    Increment(Dots),
    Adjust(Lines),
}

// A code, and the number of its bytes after the first.
#[derive(Clone, Copy)]
pub struct Decoded {
    pub code: Code,
    pub after: usize,
}

// The two's complement number of seven bits.
fn signed7(b: u8) -> i32
    requires { b < 128 }
    ensures { result ≡ twos 128 b }
{
    if b < 64 {
        i32::from(b)
    } else {
        i32::from(b) - 128
    }
}

// The byte at `at`, one of seven bits, on which a code goes on.
#[tactic(auto, unfolding(crate::specs::Code::read, crate::specs::Code::of_seven_bits))]
fn next_byte(s: &[u8], at: usize) -> Result<u8, Reason>
    ensures decides { (f : ℕ → Meaning) → read (further f) (drop at s.now) ≡ after_byte result (λ b. one_more (read (f b) (drop (at + 1) s.now))) }
    ensures bounds { IfOk result (λ b. (b < 128) × (at + 1 < 2 ^ 64)) }
{
    match s.get(at) {
        None => Err(Reason::CodeCutShort),
        Some(b) if ESCAPE < *b => Err(Reason::OutsidePart),
        Some(b) => Ok(*b),
    }
}

// XGP ESCAPE 2, from its third byte on.
#[tactic(auto, unfolding(crate::specs::Code::increments, crate::specs::Code::read, crate::specs::Code::one_more))]
fn increment(s: &[u8], at: usize) -> Result<Decoded, Reason>
    ensures { result ≡ one_more (read increments (drop at s.now)) }
{
    let b = next_byte(s, at)?;
    Ok(Decoded {
        code: Code::Increment(Dots(signed7(b))),
        after: 2,
    })
}

// Base-line adjust, from its fourth byte on.
#[tactic(auto, unfolding(crate::specs::Code::adjusts, crate::specs::Code::read, crate::specs::Code::one_more))]
fn adjust(s: &[u8], at: usize) -> Result<Decoded, Reason>
    ensures { result ≡ one_more (one_more (read adjusts (drop at s.now))) }
{
    let b = next_byte(s, at)?;
    Ok(Decoded {
        code: Code::Adjust(Lines(signed7(b))),
        after: 3,
    })
}

// The column selector, from its fourth byte on: the high byte first.
#[tactic(auto, unfolding(crate::specs::Code::columns, crate::specs::Code::read, crate::specs::Code::one_more))]
fn column(s: &[u8], at: usize) -> Result<Decoded, Reason>
    ensures { result ≡ one_more (one_more (read columns (drop at s.now))) }
{
    let high = next_byte(s, at)?;
    let low = next_byte(s, at + 1)?;
    let n = 128 * i32::from(high) + i32::from(low);
    Ok(Decoded {
        code: Code::Column(Dots(n)),
        after: 4,
    })
}

// XGP ESCAPE 1 with the operation code b, before the bytes from `at`.
#[tactic(auto, unfolding(crate::specs::Code::operations, crate::specs::Code::read, crate::specs::Code::one_more))]
fn operation(s: &[u8], at: usize, b: u8) -> Result<Decoded, Reason>
    requires { b < 128 }
    ensures { result ≡ one_more (one_more (read (operations b) (drop at s.now))) }
{
    match b {
        0x00..=0x03 => Ok(Decoded {
            code: Code::Font(b),
            after: 2,
        }),
        0x20 => column(s, at),
        0x23 => adjust(s, at),
        0x21..=0x22 | 0x24..=0x28 => Err(Reason::OutsidePart),
        _ => Err(Reason::ReservedCode),
    }
}

// ESCAPE with the second byte b, before the bytes from `at`.
#[tactic(auto, unfolding(crate::specs::Code::escaped, crate::specs::Code::read, crate::specs::Code::one_more))]
fn escape(s: &[u8], at: usize, b: u8) -> Result<Decoded, Reason>
    requires { b < 128 }
    ensures { result ≡ one_more (read (escaped b) (drop at s.now)) }
{
    match b {
        0x01 => {
            let code = next_byte(s, at)?;
            operation(s, at + 1, code)
        }
        0x02 => increment(s, at),
        0x03..=0x04 => Err(Reason::OutsidePart),
        0x05..=0x08 | 0x0B | 0x0E..=0x1F => Err(Reason::ReservedCode),
        _ => Ok(Decoded {
            code: Code::Char(b),
            after: 1,
        }),
    }
}

// What the byte b, 0 to 15 octal, means by itself. The byte is tested in turn: of a match the compiler makes a jump through a table, and a
// file of null codes then takes half as many instructions again.
#[tactic(auto, unfolding(crate::specs::Code::decode, crate::specs::Code::of_seven_bits, crate::specs::Code::usual, crate::specs::Code::read))]
fn control(b: u8) -> Result<Decoded, Reason>
    requires { b < 14 }
    ensures { (bs : List ℕ) → result ≡ decodeOf b bs }
{
    let code = if b < 0x01 {
        Code::Null
    } else if b < 0x08 {
        Code::Char(b)
    } else if b < 0x0A {
        return Err(Reason::OutsidePart);
    } else if b < 0x0B {
        Code::LineFeed
    } else if b < 0x0C {
        Code::Char(b)
    } else if b < 0x0D {
        Code::FormFeed
    } else {
        Code::Return
    };
    Ok(Decoded { code, after: 0 })
}

// The code with first byte b, before the bytes from `at`.
#[tactic(auto, unfolding(crate::specs::Code::decode, crate::specs::Code::of_seven_bits, crate::specs::Code::usual, crate::specs::Code::read))]
pub fn decode(s: &[u8], at: usize, b: u8) -> Result<Decoded, Reason>
    ensures { result ≡ decodeOf b (drop at s.now) }
{
    if b < 0x0E {
        return control(b);
    }
    match b {
        0x80..=0xFF => Err(Reason::OutsidePart),
        ESCAPE => {
            let second = next_byte(s, at)?;
            escape(s, at + 1, second)
        }
        _ => Ok(Decoded {
            code: Code::Char(b),
            after: 0,
        }),
    }
}
