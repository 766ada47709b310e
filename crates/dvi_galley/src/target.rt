// The places that targets are of.
ghost use Rattle.std.specs.Prelude.{◌≡◌};
ghost use Rattle.measure.specs.Target.{x_targets};
ghost use Rattle.dvi_galley.specs.Target.{x_of_target, height_of_target};
ghost use Rattle.dvi_galley.specs.Taken.{across_of, down_of, InHeights};

use measure::target_table::TargetTable;
use measure::{Quanta, Rsu, Units};

// The targets of the first x of the table and of the last.
const LEAST: Rsu = Rsu(-600_747);

const GREATEST: Rsu = Rsu(35_378_517);

// A unit is this many thirds of an rsu, and a quantum this many rsu.
const UNIT: u32 = measure::RSU_PER_QUANTUM as u32;

const QUANTUM: u32 = measure::RSU_PER_QUANTUM as u32;

// Fifty-five units and a half, in thirds of an rsu: the table begins at -55, and the half rounds to the nearest.
const SHIFT: i32 = measure::RSU_PER_QUANTUM * measure::DOUBLE_SHIFT.0
    + measure::RSU_PER_QUANTUM / 2;

// The x whose target this is. The place nearest to three times the number is the only one that can have it as its target; the table decides.
pub fn x_of_target(targets: &TargetTable, t: Rsu) -> Option<Units>
    requires { targets.now ≡ x_targets }
    ensures { across_of result ≡ x_of_target t.0 }
{
    let z = t.0;
    if z < LEAST.0 || GREATEST.0 < z {
        return None;
    }
    let k = (3 * z + SHIFT) as u32 / UNIT;
    let x = Units(k as i32 + measure::FIRST_X.0);
    let found = x.target(targets).0;
    if found == z { Some(x) } else { None }
}

// The height whose target this is.
pub fn height_of_target(t: Rsu) -> Option<Quanta>
    ensures { (down_of result ≡ height_of_target t.0) × InHeights result }
{
    let z = t.0;
    if z < 0 {
        return None;
    }
    let n = z as u32;
    if n % QUANTUM == 0 {
        Some(Quanta((n / QUANTUM) as i32))
    } else {
        None
    }
}
