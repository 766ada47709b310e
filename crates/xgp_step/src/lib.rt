// One code of a file of XGP character mode (003), a stretch of ordinary characters, and the fields of a character.
#![tactic(auto)]

pub mod fields;
pub mod stretch;

ghost use Rattle.std.specs.Prelude.{◌≡◌, ◌+◌, ◌≤◌, ◌<◌, length, get_or, drop};
ghost use Rattle.xgp.specs.File as S;
ghost use Rattle.xgp_step.specs.Step.{step_of};

use octets::refusal::Reason;
use xgp::state::{Effect, State};

// What a code does, and the number of its bytes after the first.
#[derive(Clone, Copy)]
pub struct Stepped {
    pub effect: Effect,
    pub after: usize,
}

// The code at `at`.
pub fn step(
    file: &[u8],
    spacing: u16,
    widths: &[i32],
    at: usize,
    s: State,
) -> Result<Stepped, Reason>
    requires { (at < length file.now) × (s.page + 1 ≤ 2147483647) }
    ensures { step_of s result ≡ S.step widths.now spacing s (get_or file.now at 0) (drop (at + 1) file.now) }
{
    let decoded = xgp_code::decode(file, at + 1, file[at])?;
    let effect = s.effect_of(widths, spacing, decoded.code);
    Ok(Stepped {
        effect: effect.ok_or(Reason::OutOf32Bits)?,
        after: decoded.after,
    })
}
