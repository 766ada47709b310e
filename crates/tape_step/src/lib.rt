// One code of a C/A/T tape (document 01, "Tape codes"): what it does to the machine.
#![tactic(auto)]

ghost use Rattle.std.specs.Prelude.{◌≡◌};
ghost use Rattle.typesetter.specs.Machine.{flash_of, escape_of, lead_of, instruction_effect, byte_effect};
ghost use Rattle.typesetter.specs.Sound.{Sound};

use galley_file::character::Character;
use galley_file::font;
use measure::{Quanta, Units};
use octets::refusal::Reason;
use typesetter::code::{Code, Instruction};
use typesetter::machine;
use typesetter::machine::{Effect, Modes, State};

// The escape that leaves the left switch.
const FIRST_ESCAPE: u8 = 16;

// A flash of v.
#[tactic(auto, unfolding(typesetter::specs::Machine::flash_of))]
fn flash(s: State, v: u8) -> Result<Effect, Reason>
    requires { Sound s }
    ensures { result ≡ flash_of s v }
{
    if s.parked {
        return Err(Reason::Parked);
    }
    if machine::NO_SIZE_YET <= s.size {
        return Err(Reason::NoSize);
    }
    if s.modes.is_past_half(v) {
        return Err(Reason::AboveHalf);
    }
    Ok(Effect::Flashed(Character {
        x: s.carriage.x(font::is_double(s.size)),
        height: s.height,
        font: s.font_number(),
        code: s.modes.code(v),
    }))
}

// An escape; while parked only the one that leaves the switch.
#[tactic(auto, unfolding(typesetter::specs::Machine::escape_of))]
fn escape(s: State, by: u8) -> Result<Effect, Reason>
    ensures { result ≡ escape_of s by }
{
    if !s.parked {
        let carriage = s
            .carriage
            .escape(by, s.modes.escape_back)
            .ok_or(Reason::OutOfRange)?;
        return Ok(Effect::Moved(State { carriage, ..s }));
    }
    if s.modes.escape_back || by != FIRST_ESCAPE {
        return Err(Reason::Parked);
    }
    Ok(Effect::Moved(State {
        parked: false,
        carriage: Units(0),
        ..s
    }))
}

// A lead, parked or not.
#[tactic(auto, unfolding(typesetter::specs::Machine::lead_of))]
fn lead(s: State, by: u8) -> Result<Effect, Reason>
    ensures { result ≡ lead_of s by }
{
    let height = s
        .height
        .lead(by, s.modes.lead_back)
        .ok_or(Reason::OutOfRange)?;
    Ok(Effect::Moved(State { height, ..s }))
}

// A code other than 00 and initialize, on an initialized machine that has neither stopped nor cut.
#[tactic(auto, unfolding(typesetter::specs::Machine::instruction_effect))]
fn execute(s: State, o: Instruction) -> Result<Effect, Reason>
    requires { Sound s }
    ensures { result ≡ instruction_effect s o }
{
    let turned = |modes: Modes| Ok(Effect::Moved(State { modes, ..s }));
    match o {
        Instruction::Flash(v) => flash(s, v),
        Instruction::Rail(upper_rail) => turned(Modes {
            upper_rail,
            ..s.modes
        }),
        Instruction::Mag(upper_mag) => turned(Modes {
            upper_mag,
            ..s.modes
        }),
        Instruction::Half(upper_half) => turned(Modes {
            upper_half,
            ..s.modes
        }),
        Instruction::EscapeWay(escape_back) => turned(Modes {
            escape_back,
            ..s.modes
        }),
        Instruction::LeadWay(lead_back) => turned(Modes {
            lead_back,
            ..s.modes
        }),
        Instruction::Tilt(tilt_down) => turned(Modes {
            tilt_down,
            ..s.modes
        }),
        Instruction::Size(size) => Ok(Effect::Moved(State { size, ..s })),
        // Nothing but 00 may follow.
        Instruction::Stop => Ok(Effect::Moved(State { stopped: true, ..s })),
        // The next page starts at height 0, with initialize.
        Instruction::Cut => Ok(Effect::PageEnded(State {
            cut: true,
            height: Quanta(0),
            ..s
        })),
        Instruction::Lead(by) => lead(s, by),
        Instruction::Escape(by) => escape(s, by),
    }
}

// One code.
#[tactic(auto, unfolding(typesetter::specs::Machine::byte_effect, typesetter::specs::Machine::code_effect))]
pub fn step(s: State, b: u8) -> Result<Effect, Reason>
    requires { Sound s }
    ensures { result ≡ byte_effect s b }
{
    match s.machine.classify(b) {
        Code::Ignored => Ok(Effect::Moved(s)),
        Code::Illegal => Err(Reason::IllegalCode),
        Code::Initialize if s.stopped => Err(Reason::AfterStop),
        Code::Initialize => Ok(Effect::Moved(s.after_initialize())),
        Code::Instructs(_) if !s.initialized => Err(Reason::NotInitialized),
        Code::Instructs(_) if s.cut => Err(Reason::AfterCut),
        Code::Instructs(_) if s.stopped => Err(Reason::AfterStop),
        Code::Instructs(o) => execute(s, o),
    }
}
