// How a file compares with a command that should stand at a place.
ghost use Rattle.std.specs.Prelude.{◌≡◌, ◌≤◌, length, drop};
ghost use Rattle.dvi2_page.specs.Match.{compared};

use dvi2_state::page_state::Wrong;

// Whether the command e stands in s at `at`: if not, the file ends inside it, or another command stands there.
pub fn compare(s: &[u8], at: usize, e: &[u8]) -> Result<(), Wrong>
    requires { at ≤ length s.now }
    ensures { result ≡ compared (drop at s.now) e.now }
{
    let rest = &s[at..];
    if rest.starts_with(e) {
        Ok(())
    } else if e.starts_with(rest) {
        Err(Wrong::Short)
    } else {
        Err(Wrong::Bad)
    }
}
