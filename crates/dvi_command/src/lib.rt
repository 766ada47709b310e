// The commands inside a page of a DVI file of 1980 (002), read from bytes.
#![tactic(auto)]

ghost use Rattle.std.specs.Prelude.{◌≡◌, Ok, List, ℕ, ◌+◌, ◌≤◌, ◌<◌, length, drop};
ghost use Rattle.dvi.specs.Command.{decode as decodeOf, with_parameters, takes};
ghost use Rattle.dvi_command.specs.Command.{command_of, decoded_of, read_of, parameter_of, still_of, moving_of};

use dvi::opcode;
use measure::Rsu;
use octets::number;
use octets::refusal::Reason;

// The amounts of moves.
#[derive(Clone, Copy, PartialEq, Eq)]
enum Amount {
    W,
    X,
    Y,
    Z,
}

#[derive(Clone, Copy)]
pub enum Command {
    SetChar(u8),
    Nop,
    Eop,
    Push,
    Pop,
    VertRule(Rsu, Rsu),
    HorzRule(Rsu, Rsu),
    HorzChar(i32),
    SetFont(i32),
    MoveW(Rsu),
    MoveW0,
    MoveX(Rsu),
    MoveX0,
    MoveY(Rsu),
    MoveY0,
    MoveZ(Rsu),
    MoveZ0,
}

// A command, with the number of its parameters' bytes.
#[derive(Clone, Copy)]
pub struct Decoded {
    pub command: Command,
    pub length: usize,
}

// The parameter of n bytes from `at`, if they are there.
fn parameter_at(s: &[u8], at: usize, n: usize) -> Option<i32>
    requires { (at ≤ length s.now) × ((0 < n) × (n < 5)) }
    ensures { result ≡ parameter_of n (drop at s.now) }
{
    if s.len() - at < n {
        None
    } else {
        Some(number::signed_at(s, at, n))
    }
}

// W0, X0, Y0 or Z0.
fn still(amount: Amount) -> Command
    ensures { command_of result ≡ still_of amount }
{
    match amount {
        Amount::W => Command::MoveW0,
        Amount::X => Command::MoveX0,
        Amount::Y => Command::MoveY0,
        Amount::Z => Command::MoveZ0,
    }
}

// A move by m that sets the amount W, X, Y or Z.
fn moving(amount: Amount, m: Rsu) -> Command
    ensures { command_of result ≡ moving_of amount m.0 }
{
    match amount {
        Amount::W => Command::MoveW(m),
        Amount::X => Command::MoveX(m),
        Amount::Y => Command::MoveY(m),
        Amount::Z => Command::MoveZ(m),
    }
}

// A command of so many bytes of parameters.
fn whole(command: Command, length: usize) -> Result<Decoded, Reason>
    ensures { decoded_of result ≡ Ok (command_of command, length) }
{
    Ok(Decoded { command, length })
}

// The move that sets an amount, by the parameter of n bytes from `at`.
fn decode_move(s: &[u8], at: usize, amount: Amount, n: usize) -> Result<Decoded, Reason>
    requires { (at ≤ length s.now) × ((0 < n) × (n < 5)) }
    ensures { decoded_of result ≡ read_of (with_parameters (takes n (moving_of amount)) (drop at s.now)) }
{
    let Some(m) = parameter_at(s, at, n) else {
        return Err(Reason::DviEndsEarly);
    };
    whole(moving(amount, Rsu(m)), n)
}

// VERTRULE and HORZRULE.
fn decode_rule(s: &[u8], at: usize, op: u8) -> Result<Decoded, Reason>
    requires { (at ≤ length s.now) × ((134 ≤ op) × (op < 136)) }
    ensures { decoded_of result ≡ read_of (decodeOf op (drop at s.now)) }
{
    if s.len() - at < 8 {
        return Err(Reason::DviEndsEarly);
    }
    let h = Rsu(number::signed4_at(s, at));
    let w = Rsu(number::signed4_at(s, at + 4));
    if op == opcode::VERTRULE {
        whole(Command::VertRule(h, w), 8)
    } else {
        whole(Command::HorzRule(h, w), 8)
    }
}

// HORZCHAR and FONT.
fn decode_set(s: &[u8], at: usize, op: u8) -> Result<Decoded, Reason>
    requires { (at ≤ length s.now) × ((136 ≤ op) × (op < 138)) }
    ensures { decoded_of result ≡ read_of (decodeOf op (drop at s.now)) }
{
    if op == opcode::HORZCHAR {
        let Some(c) = parameter_at(s, at, 1) else {
            return Err(Reason::DviEndsEarly);
        };
        whole(Command::HorzChar(c), 1)
    } else {
        let Some(f) = parameter_at(s, at, 4) else {
            return Err(Reason::DviEndsEarly);
        };
        whole(Command::SetFont(f), 4)
    }
}

// NOP, EOP, PUSH and POP; BOP and PST are not allowed inside a page.
fn decode_bare(op: u8) -> Result<Decoded, Reason>
    requires { (128 ≤ op) × (op < 134) }
    ensures { (ps : List ℕ) → decoded_of result ≡ read_of (decodeOf op ps) }
{
    match op {
        opcode::NOP => whole(Command::Nop, 0),
        opcode::EOP => whole(Command::Eop, 0),
        opcode::PUSH => whole(Command::Push, 0),
        opcode::POP => whole(Command::Pop, 0),
        _ => Err(Reason::BadCommand),
    }
}

// FONTNUM, and what is undefined.
fn decode_other(op: u8) -> Result<Decoded, Reason>
    requires { 154 ≤ op }
    ensures { (ps : List ℕ) → decoded_of result ≡ read_of (decodeOf op ps) }
{
    if opcode::UNDEFINED <= op {
        Err(Reason::BadCommand)
    } else {
        whole(Command::SetFont((op - opcode::FONTNUM) as i32), 0)
    }
}

// The command with first byte op from 128 on, before the bytes from `at`. One match with single keys makes one jump.
fn decode_high(s: &[u8], at: usize, op: u8) -> Result<Decoded, Reason>
    requires { (at ≤ length s.now) × (128 ≤ op) }
    ensures { decoded_of result ≡ read_of (decodeOf op (drop at s.now)) }
{
    match op {
        opcode::NOP | opcode::BOP | opcode::EOP | opcode::PST | opcode::PUSH | opcode::POP =>
            decode_bare(op),
        opcode::VERTRULE | opcode::HORZRULE => decode_rule(s, at, op),
        opcode::HORZCHAR | opcode::FONT => decode_set(s, at, op),
        opcode::W4 => decode_move(s, at, Amount::W, 4),
        opcode::W3 => decode_move(s, at, Amount::W, 3),
        opcode::W2 => decode_move(s, at, Amount::W, 2),
        opcode::W0 => whole(still(Amount::W), 0),
        opcode::X4 => decode_move(s, at, Amount::X, 4),
        opcode::X3 => decode_move(s, at, Amount::X, 3),
        opcode::X2 => decode_move(s, at, Amount::X, 2),
        opcode::X0 => whole(still(Amount::X), 0),
        opcode::Y4 => decode_move(s, at, Amount::Y, 4),
        opcode::Y3 => decode_move(s, at, Amount::Y, 3),
        opcode::Y2 => decode_move(s, at, Amount::Y, 2),
        opcode::Y0 => whole(still(Amount::Y), 0),
        opcode::Z4 => decode_move(s, at, Amount::Z, 4),
        opcode::Z3 => decode_move(s, at, Amount::Z, 3),
        opcode::Z2 => decode_move(s, at, Amount::Z, 2),
        opcode::Z0 => whole(still(Amount::Z), 0),
        _ => decode_other(op),
    }
}

// The command with first byte op. Characters come first, being the commonest.
pub fn decode(s: &[u8], at: usize, op: u8) -> Result<Decoded, Reason>
    requires { at ≤ length s.now }
    ensures { decoded_of result ≡ read_of (decodeOf op (drop at s.now)) }
{
    if op < opcode::NOP {
        return whole(Command::SetChar(op), 0);
    }
    decode_high(s, at, op)
}
