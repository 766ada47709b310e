// The codes of motions one way or the other.
ghost use Rattle.std.specs.Prelude.{◌+◌, ◌≤◌};

// The codes of the two directions; the longest motion and its code. The code of a shorter motion is greater by what it lacks.
#[derive(Clone, Copy)]
pub struct Axis {
    pub forward: u8,
    pub backward: u8,
    pub longest: u8,
    // The code of the longest motion.
    pub code: u8,
    pub ghost moves: { 1 ≤ longest },
    pub ghost code_fits: { code + longest ≤ 255 },
}

impl Axis {
    pub const ESCAPES: Axis = Axis {
        forward: 0x47,
        backward: 0x48,
        longest: 127,
        code: 0x80,
    };

    pub const LEADS: Axis = Axis {
        forward: 0x4A,
        backward: 0x4C,
        longest: 31,
        code: 0x60,
    };
}
