// The running tape: a C/A/T tape that comes in pieces (document 02, "From the tape drive"). Each call takes the running tape by value and
// gives it back with its answer.
#![tactic(auto)]

mod close;

ghost use Rattle.std.specs.Prelude.{◌≡◌, Ok, Err};
ghost use Rattle.octets.specs.Answer.{number_of, place_of, outcome};
ghost use Rattle.running.specs.Answer.{kept_number, kept_place, outcome_in};
ghost use Rattle.running.specs.Running.{is_sound, failed, new_tape, begun, close_of, start_of, Leaves};

use extents::Extents;
use octets::refusal::{Numbered, Reason, Refusal};
use typesetter::code::Machine;
use typesetter::machine::State;

// At rest before any start and after an accepted closing; open; or refused for good, with the refusal that is repeated. It is kept as a number
// and a place, and not as a Refusal: C lends the words that hold it, with any number (`spatecanter_running::words`).
#[derive(Clone, Copy)]
pub enum Phase {
    AtRest,
    Open,
    Failed(u8, usize),
}

#[derive(Clone, Copy)]
pub struct Running {
    pub phase: Phase,
    pub state: State,
    // The bytes and the characters since the start.
    pub total: usize,
    pub count: usize,
    // Of the characters gone out since the start.
    pub extents: Extents,
}

// Why a call is refused: what it found, or the number and the place of the refusal that it repeats.
#[derive(Clone, Copy)]
pub enum Refused {
    Now(Refusal),
    Again(u8, usize),
}

impl Numbered for Refused {
    type Cause = u8;

    ghost cause_number = { λ number. number };

    ghost number_is = { kept_number };

    ghost place_is = { kept_place };

    fn made_at(cause: u8, place: usize) -> Refused {
        Refused::Again(cause, place)
    }

    fn number(self) -> u8 {
        match self {
            Refused::Now(refusal) => refusal.number(),
            Refused::Again(number, _) => number,
        }
    }

    fn place(self) -> usize {
        match self {
            Refused::Now(refusal) => refusal.place,
            Refused::Again(_, place) => place,
        }
    }
}

// The length of what a call wrote, or its refusal.
pub type Answer = Result<usize, Refused>;

// What a call leaves of the running tape, and answers.
#[derive(Clone, Copy)]
pub struct Reply {
    pub tape: Running,
    pub answer: Answer,
}

impl Running {
    // A running tape before any start.
    pub fn new() -> Running
        ensures { result ≡ new_tape }
    {
        Running {
            phase: Phase::AtRest,
            state: State::at_start(Machine::Eight),
            total: 0,
            count: 0,
            extents: extents::none(),
        }
    }

    // Whether a call can go on with an open running tape.
    #[tactic(auto, unfolding(crate::specs::Running::is_sound))]
    pub fn is_sound(self) -> bool
        ensures { result ≡ is_sound self }
    {
        self.total <= tape::MAX_TAPE
            && self.count <= self.total
            && self.state.carriage.is_carriage()
            && self.state.height.is_height()
    }

    // A refusal that leaves the running tape as it was.
    pub fn refusing(self, refused: Refused) -> Reply
        ensures { result ≡ record { tape = self; answer = Err refused } }
    {
        Reply {
            tape: self,
            answer: Err(refused),
        }
    }

    // A refusal that the running tape keeps.
    pub fn failing(self, refused: Refused) -> Reply
        ensures { result ≡ record { tape = failed self (number_of (outcome_in (Err refused))) (place_of (outcome_in (Err refused))); answer = Err refused } }
    {
        let phase = match refused {
            Refused::Now(refusal) => Phase::Failed(refusal.reason.number(), refusal.place),
            Refused::Again(number, place) => Phase::Failed(number, place),
        };
        Reply {
            tape: Running { phase, ..self },
            answer: Err(refused),
        }
    }

    // A start on the machine with so many fonts, 4 or 8.
    pub fn started(self, machine: u32) -> Reply
        ensures { (outcome_in result.answer ≡ outcome (start_of self machine).result) × (result.tape ≡ (start_of self machine).tape) }
    {
        let none = extents::none();
        match Machine::try_from(machine) {
            Ok(machine) => begin(machine, none),
            Err(reason) => self.refusing(Refused::Now(reason.at(0))),
        }
    }

    // The close: End goes into the lent buffer.
    pub fn closed(self, out: &mut [u8]) -> Reply
        ensures { Leaves (outcome_in result.answer) result.tape (close_of self) out.old out.new }
    {
        match self.phase {
            Phase::AtRest => self.refusing(Refused::Now(Reason::NotStarted.at(0))),
            Phase::Failed(number, place) => self.refusing(Refused::Again(number, place)),
            Phase::Open => close::close_open(self, out),
        }
    }
}

// The reply of an accepted start.
fn begin(machine: Machine, extents: Extents) -> Reply
    ensures { result ≡ record { tape = begun machine extents; answer = Ok 0 } }
{
    Reply {
        tape: Running {
            phase: Phase::Open,
            state: State::at_start(machine),
            total: 0,
            count: 0,
            extents,
        },
        answer: Ok(0),
    }
}
