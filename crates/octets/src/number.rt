// Numbers in bytes, the high byte first, and in two's complement.
ghost use Rattle.std.specs.Prelude.{◌≡◌, [], ◌∷◌, ◌+◌, ◌≤◌, ◌<◌, length};
ghost use Rattle.std.specs.Int.Signed.{mag};
ghost use Rattle.octets.specs.Octets.{twos, nat_at, signed_at, bytes, residue, signed_bytes, width_of};
ghost use Rattle.octets.specs.Write.{Wrote};

fn wide(b: u8) -> u32
    ensures { (result ≡ b) × (result < 256) }
{
    b as u32
}

// The signed number whose 32 bits are v.
fn of_bits(v: u32) -> i32
    ensures { result ≡ twos 4294967296 v }
{
    if v < 2_147_483_648 {
        v as i32
    } else {
        -1 - ((4_294_967_295 - v) as i32)
    }
}

// The 32 bits of z.
fn to_bits(z: i32) -> u32
    ensures { result ≡ residue 4294967296 z }
{
    if z < 0 {
        4_294_967_295 - ((-1 - z) as u32)
    } else {
        z as u32
    }
}

// z, or -1 - z where z is negative.
pub fn magnitude(z: i32) -> u32
    ensures { result ≡ mag z }
{
    let bits = to_bits(z);
    if z < 0 { 4_294_967_295 - bits } else { bits }
}

// The number in the two bytes from `at`.
pub fn nat2_at(s: &[u8], at: usize) -> u32
    requires { at + 2 ≤ length s.now }
    ensures { (result ≡ nat_at 2 at s.now) × (result < 65536) }
{
    wide(s[at]) * 256 + wide(s[at + 1])
}

// The number in the three bytes from `at`.
fn nat3_at(s: &[u8], at: usize) -> u32
    requires { at + 3 ≤ length s.now }
    ensures { (result ≡ nat_at 3 at s.now) × (result < 16777216) }
{
    nat2_at(s, at) * 256 + wide(s[at + 2])
}

// The number in the four bytes from `at`.
pub fn nat4_at(s: &[u8], at: usize) -> u32
    requires { at + 4 ≤ length s.now }
    ensures { result ≡ nat_at 4 at s.now }
{
    nat2_at(s, at) * 65_536 + nat2_at(s, at + 2)
}

// The two's complement number in the byte at `at`.
pub fn signed1_at(s: &[u8], at: usize) -> i32
    requires { at + 1 ≤ length s.now }
    ensures { result ≡ signed_at 1 at s.now }
{
    of_bits(wide(s[at]) * 16_777_216) >> 24
}

// The two's complement number in the two bytes from `at`.
pub fn signed2_at(s: &[u8], at: usize) -> i32
    requires { at + 2 ≤ length s.now }
    ensures { result ≡ signed_at 2 at s.now }
{
    of_bits(nat2_at(s, at) * 65536) >> 16
}

// The two's complement number in the three bytes from `at`.
pub fn signed3_at(s: &[u8], at: usize) -> i32
    requires { at + 3 ≤ length s.now }
    ensures { result ≡ signed_at 3 at s.now }
{
    of_bits(nat3_at(s, at) * 256) >> 8
}

// The two's complement number in the four bytes from `at`.
pub fn signed4_at(s: &[u8], at: usize) -> i32
    requires { at + 4 ≤ length s.now }
    ensures { result ≡ signed_at 4 at s.now }
{
    of_bits(nat4_at(s, at))
}

// The two's complement number in so many bytes from `at`.
pub fn signed_at(s: &[u8], at: usize, width: usize) -> i32
    requires bytes { at + width ≤ length s.now }
    requires widths { (1 ≤ width) × (width ≤ 4) }
    ensures { result ≡ signed_at width at s.now }
{
    match width {
        1 => signed1_at(s, at),
        2 => signed2_at(s, at),
        3 => signed3_at(s, at),
        _ => signed4_at(s, at),
    }
}

// Writes one byte; gives the place after it, as the others do.
pub fn put_byte(out: &mut [u8], at: usize, b: u8) -> usize
    requires { at + 1 ≤ length out.old }
    ensures { Wrote out.old at (b ∷ []) out.new result }
{
    out[at] = b;
    at + 1
}

// Writes the last two bytes of n.
pub fn put_nat2(out: &mut [u8], at: usize, n: u32) -> usize
    requires { at + 2 ≤ length out.old }
    ensures { Wrote out.old at (bytes 2 n) out.new result }
{
    out[at] = (n / 256 % 256) as u8;
    out[at + 1] = (n % 256) as u8;
    at + 2
}

// Writes the four bytes of n.
pub fn put_nat4(out: &mut [u8], at: usize, n: u32) -> usize
    requires { at + 4 ≤ length out.old }
    ensures { Wrote out.old at (bytes 4 n) out.new result }
{
    let next = put_nat2(out, at, n / 65_536);
    put_nat2(out, next, n)
}

// Writes z in two's complement, in one byte.
pub fn put_signed1(out: &mut [u8], at: usize, z: i32) -> usize
    requires { at + 1 ≤ length out.old }
    ensures { Wrote out.old at (signed_bytes 1 z) out.new result }
{
    put_byte(out, at, (to_bits(z) % 256) as u8)
}

// Writes z in two's complement, in two bytes.
pub fn put_signed2(out: &mut [u8], at: usize, z: i32) -> usize
    requires { at + 2 ≤ length out.old }
    ensures { Wrote out.old at (signed_bytes 2 z) out.new result }
{
    put_nat2(out, at, to_bits(z))
}

// Writes z in two's complement, in three bytes.
pub fn put_signed3(out: &mut [u8], at: usize, z: i32) -> usize
    requires { at + 3 ≤ length out.old }
    ensures { Wrote out.old at (signed_bytes 3 z) out.new result }
{
    let n = to_bits(z);
    let next = put_byte(out, at, (n / 65_536 % 256) as u8);
    put_nat2(out, next, n)
}

// Writes z in two's complement, in four bytes.
pub fn put_signed4(out: &mut [u8], at: usize, z: i32) -> usize
    requires { at + 4 ≤ length out.old }
    ensures { Wrote out.old at (signed_bytes 4 z) out.new result }
{
    put_nat4(out, at, to_bits(z))
}

// Writes z in two's complement, in so many bytes.
pub fn put_signed(out: &mut [u8], at: usize, width: usize, z: i32) -> usize
    requires room { at + width ≤ length out.old }
    requires widths { (1 ≤ width) × (width ≤ 4) }
    ensures { Wrote out.old at (signed_bytes width z) out.new result }
{
    match width {
        1 => put_signed1(out, at, z),
        2 => put_signed2(out, at, z),
        3 => put_signed3(out, at, z),
        _ => put_signed4(out, at, z),
    }
}

// The fewest of 2, 3 and 4 bytes that hold z in two's complement.
pub fn signed_width(z: i32) -> usize
    ensures { (result ≡ width_of z) × ((2 ≤ result) × (result ≤ 4)) }
{
    let m = magnitude(z);
    if m < 32_768 {
        2
    } else if m < 8_388_608 {
        3
    } else {
        4
    }
}
