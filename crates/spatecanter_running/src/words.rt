// A running tape as an array of words, and back: every array holds one.
ghost use Rattle.std.specs.Prelude.{◌≡◌, ◌%◌};
ghost use Rattle.spatecanter_running.specs.Words.{word_of, signed_in, flag_word, machine_word, machine_in, phase_word, number_word, place_word, phase_in, state_in, extents_in, tape_in, Holds};

use extents::Extents;
use extents::fonts::Fonts;
use measure::{Quanta, Units};
use running::{Phase, Running};
use typesetter::code::Machine;
use typesetter::machine::{Modes, State};

// A running tape's array.
pub type TapeWords = [u64; 23];

// A signed number as a word.
fn word_of(z: i32) -> u64
    ensures { (result ≡ word_of z) × (signed_in result ≡ z) }
{
    (z as i64 + 2_147_483_648) as u64
}

fn units_word(x: Units) -> u64
    ensures { (result ≡ word_of x.0) × (signed_in result ≡ x.0) }
{
    word_of(x.0)
}

fn quanta_word(h: Quanta) -> u64
    ensures { (result ≡ word_of h.0) × (signed_in result ≡ h.0) }
{
    word_of(h.0)
}

// The signed number that a word holds.
fn signed_in(w: u64) -> i32
    ensures { result ≡ signed_in w }
{
    ((w % 4_294_967_296) as i64 - 2_147_483_648) as i32
}

// 1 or 0.
fn flag_word(b: bool) -> u64
    ensures { result ≡ flag_word b }
{
    u64::from(b)
}

// 4 or 8.
fn machine_word(m: Machine) -> u64
    ensures { result ≡ machine_word m }
{
    match m {
        Machine::Four => 4,
        Machine::Eight => 8,
    }
}

fn machine_in(w: u64) -> Machine
    ensures { result ≡ machine_in w }
{
    if w == 4 {
        Machine::Four
    } else {
        Machine::Eight
    }
}

fn byte_word(n: u8) -> u64
    ensures { (result ≡ n) × (result % 256 ≡ n) }
{
    u64::from(n)
}

// The three words of a phase: which, and the number and the place of the refusal that is repeated.
fn phase_word(p: Phase) -> u64
    ensures { result ≡ phase_word p }
{
    match p {
        Phase::AtRest => 0,
        Phase::Open => 1,
        Phase::Failed(_, _) => 2,
    }
}

fn number_word(p: Phase) -> u64
    ensures { (result ≡ number_word p) × (result % 256 ≡ number_word p) }
{
    match p {
        Phase::AtRest => 0,
        Phase::Open => 0,
        Phase::Failed(n, _) => byte_word(n),
    }
}

fn place_word(p: Phase) -> u64
    ensures { result ≡ place_word p }
{
    match p {
        Phase::AtRest => 0,
        Phase::Open => 0,
        Phase::Failed(_, place) => place as u64,
    }
}

fn phase_in(w: u64, n: u64, place: u64) -> Phase
    ensures { result ≡ phase_in w n place }
{
    if w == 1 {
        Phase::Open
    } else if w == 2 {
        Phase::Failed((n % 256) as u8, place as usize)
    } else {
        Phase::AtRest
    }
}

// The words of a running tape, which hold it.
pub fn words_of(r: Running) -> TapeWords
    ensures { Holds result r }
{
    let phase = r.phase;
    let state = r.state;
    let machine = state.machine;
    [
        phase_word(phase),
        number_word(phase),
        place_word(phase),
        machine_word(machine),
        flag_word(state.initialized),
        flag_word(state.parked),
        flag_word(state.stopped),
        flag_word(state.cut),
        flag_word(state.modes.escape_back),
        flag_word(state.modes.lead_back),
        flag_word(state.modes.upper_half),
        flag_word(state.modes.upper_rail),
        flag_word(state.modes.upper_mag),
        flag_word(state.modes.tilt_down),
        byte_word(state.size),
        units_word(state.carriage),
        quanta_word(state.height),
        r.total as u64,
        r.count as u64,
        units_word(r.extents.x),
        quanta_word(r.extents.height),
        r.extents.fonts.low,
        r.extents.fonts.high,
    ]
}

// The machine's state that words hold.
fn state_in(w: TapeWords) -> State
    ensures { result ≡ state_in w }
{
    let machine = machine_in(w[3]);
    let carriage = signed_in(w[15]);
    let height = signed_in(w[16]);
    let modes = Modes {
        escape_back: w[8] == 1,
        lead_back: w[9] == 1,
        upper_half: w[10] == 1,
        upper_rail: w[11] == 1,
        upper_mag: w[12] == 1,
        tilt_down: w[13] == 1,
    };
    State {
        machine,
        initialized: w[4] == 1,
        parked: w[5] == 1,
        stopped: w[6] == 1,
        cut: w[7] == 1,
        modes,
        size: (w[14] % 256) as u8,
        carriage: Units(carriage),
        height: Quanta(height),
    }
}

// The extents that words hold.
pub fn extents_in(w: TapeWords) -> Extents
    ensures { result ≡ extents_in w }
{
    let x = signed_in(w[19]);
    let height = signed_in(w[20]);
    Extents {
        x: Units(x),
        height: Quanta(height),
        fonts: Fonts {
            low: w[21],
            high: w[22],
        },
    }
}

// The running tape that words hold.
pub fn tape_in(w: TapeWords) -> Running
    ensures { result ≡ tape_in w }
{
    let phase = phase_in(w[0], w[1], w[2]);
    let state = state_in(w);
    let extents = extents_in(w);
    let total = w[17] as usize;
    let count = w[18] as usize;
    Running {
        phase,
        state,
        total,
        count,
        extents,
    }
}
