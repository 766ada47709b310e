// The version of the library, for C and Rust callers. A crate of its own, since it stands on nothing.
#![tactic(auto)]

ghost use Rattle.std.specs.Prelude.{◌≡◌};
ghost use Rattle.spatecanter_version.specs.Version.{version};

const MAJOR: u32 = 0;

const MINOR: u32 = 1;

const PATCH: u32 = 0;

// The version as one number.
#[unsafe(no_mangle)]
pub extern "C" fn sp_version() -> u32
    ensures { result ≡ version }
{
    MAJOR * 10_000 + MINOR * 100 + PATCH
}
