// Sums and differences that stay in signed 32 bits. They are made in 64 bits: by `checked_add` a file of the XGP takes two instructions a byte more.
ghost use Rattle.std.specs.Prelude.{◌≡◌, ◌+ℤ◌, ◌-ℤ◌};
ghost use Rattle.octets.specs.Reach.{reach};

// t, if 32 bits hold it.
fn narrowed(t: i64) -> Option<i32>
    ensures { result ≡ reach t }
{
    i32::try_from(t).ok()
}

// a + b, if 32 bits hold it.
pub fn sum(a: i32, b: i32) -> Option<i32>
    ensures { result ≡ reach (a +ℤ b) }
{
    narrowed(i64::from(a) + i64::from(b))
}

// a - b, if 32 bits hold it.
pub fn difference(a: i32, b: i32) -> Option<i32>
    ensures { result ≡ reach (a -ℤ b) }
{
    narrowed(i64::from(a) - i64::from(b))
}
