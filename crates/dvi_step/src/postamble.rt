// The form of the postamble.
ghost use Rattle.std.specs.Prelude.{◌≡◌, ◌+◌, ◌≤◌, ◌<◌, length, drop};
ghost use Rattle.dvi.specs.Postamble as P;
ghost use Rattle.dvi_step.specs.Postamble.{Past};

use dvi::opcode;
use octets::number;

// Past the next byte q, from i on.
fn past_name(s: &[u8], i: usize, q: u8) -> Option<usize>
    requires { i ≤ length s.now }
    ensures { Past s.now i (P.in_name q) i result }
{
    let name = s[i..].iter().position(|b| *b == q)?;
    Some(i + name + 1)
}

// Past the definition whose ID stands at i.
fn past_definition(s: &[u8], i: usize) -> Option<usize>
    requires { i + 4 ≤ length s.now }
    ensures { Past s.now i (P.before_name 7) (i + 1) result }
{
    if s.len() - i < 9 {
        return None;
    }
    past_name(s, i + 9, s[i + 8])
}

// Whether bytes 223 alone follow, from i on.
fn is_filled(s: &[u8], i: usize) -> bool
    requires { i ≤ length s.now }
    ensures { result ≡ P.all223 (drop i s.now) }
{
    s[i..].iter().all(|b| *b == opcode::FILLER)
}

// Whether PST's offset, a zero byte and the bytes 223 follow, from i on.
fn is_trailer(s: &[u8], i: usize, pst: usize) -> bool
    requires { (i ≤ length s.now) × (pst < 2147483648) }
    ensures { result ≡ P.trailer pst (drop i s.now) }
{
    if s.len() - i < 9 {
        return false;
    }
    number::signed4_at(s, i) == pst as i32 && s[i + 4] == 0 && is_filled(s, i + 5)
}

// Whether font definitions, their end mark and the trailer follow, from i on. A turn takes as many bytes as its definition has.
fn are_definitions(s: &[u8], i: usize, pst: usize) -> bool
    requires { (i ≤ length s.now) × (pst < 2147483648) }
    ensures { result ≡ P.definitions pst P.at_id (drop i s.now) }
{
    let mut j = i;
    // A turn takes as many bytes as its definition has, which no iterator over bytes does.
    loop {
        if s.len() - j < 4 {
            return false;
        }
        if number::signed4_at(s, j) == -1 {
            return is_trailer(s, j + 4, pst);
        }
        let Some(next) = past_definition(s, j) else {
            return false;
        };
        j = next;
    }
}

// Whether a postamble follows the PST at `pst`, where the last BOP stood at `last`.
pub fn is_postamble(s: &[u8], pst: usize, last: i32) -> bool
    requires { (pst < length s.now) × (pst < 2147483648) }
    ensures { result ≡ P.postamble last pst (drop (pst + 1) s.now) }
{
    if s.len() - pst < 13 {
        return false;
    }
    number::signed4_at(s, pst + 1) == last && are_definitions(s, pst + 13, pst)
}
