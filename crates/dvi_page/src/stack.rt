// The stack: 200 entries of six numbers in one array, entry d from place 6 d on. The array has numbers; a page has rsu.
ghost use Rattle.std.specs.Prelude.{◌≡◌, ◌∷◌, ◌+◌, ◌<◌, length};
ghost use Rattle.dvi.specs.Page.{max_stack};
ghost use Rattle.dvi_page.specs.Stack.{stack_size, six_numbers, entry_at, stack_of};

use measure::Rsu;

pub const MAX_STACK: usize = 200;

// The numbers of the whole stack.
pub const STACK_SIZE: usize = 6 * MAX_STACK;

pub type Entries = [i32; STACK_SIZE];

// The coordinates, and the amounts W, X, Y and Z.
#[derive(Clone, Copy)]
pub struct Numbers {
    pub x: Rsu,
    pub y: Rsu,
    pub wa: Rsu,
    pub xa: Rsu,
    pub ya: Rsu,
    pub za: Rsu,
}

// Puts n on top of d entries.
pub fn put_entry(stack: &mut [i32], d: usize, n: Numbers)
    requires { (d < max_stack) × (length stack.old ≡ stack_size) }
    ensures { stack_of stack.new (d + 1) ≡ six_numbers n ∷ stack_of stack.old d }
{
    let i = 6 * d;
    stack[i] = n.x.0;
    stack[i + 1] = n.y.0;
    stack[i + 2] = n.wa.0;
    stack[i + 3] = n.xa.0;
    stack[i + 4] = n.ya.0;
    stack[i + 5] = n.za.0;
}

// Entry d, counted from the bottom.
pub fn entry(stack: &[i32], d: usize) -> Numbers
    requires { (d < max_stack) × (length stack.now ≡ stack_size) }
    ensures { six_numbers result ≡ entry_at stack.now d }
{
    let i = 6 * d;
    Numbers {
        x: Rsu(stack[i]),
        y: Rsu(stack[i + 1]),
        wa: Rsu(stack[i + 2]),
        xa: Rsu(stack[i + 3]),
        ya: Rsu(stack[i + 4]),
        za: Rsu(stack[i + 5]),
    }
}
