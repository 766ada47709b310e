// Why a call is refused, and where (document 01, "Numbers given back").
ghost use Rattle.std.specs.Prelude.{◌≡◌, ℕ};
ghost use Rattle.octets.specs.Answer.{outcome_by, numbers_of, number_in};

// The reason of a refusal, with its number.
#[derive(Clone, Copy, PartialEq, Eq)]
pub enum Reason {
    TapeTooLong = 1,
    IllegalCode = 2,
    NotInitialized = 3,
    AfterStop = 4,
    Parked = 5,
    NoSize = 6,
    OutOfRange = 7,
    AboveHalf = 8,
    NoStop = 9,
    AfterCut = 10,
    NoCharacter = 11,
    NoGalleyRoom = 12,
    NotStarted = 13,
    FileTooLong = 20,
    BadCommand = 21,
    DviEndsEarly = 22,
    WrongOffset = 23,
    StackFull = 24,
    StackEmpty = 25,
    EntriesLeft = 26,
    CannotSet = 27,
    OutOf32Bits = 28,
    BadPostamble = 29,
    NoSheetRoom = 30,
    WidthsNotWhole = 31,
    GalleyTooLong = 40,
    GalleyMalformed = 41,
    NoDviRoom = 42,
    HeightTooGreat = 43,
    NoConvertedRoom = 44,
    NoGalley = 45,
    // The file is none that the writer of the second edition makes.
    NotOurs = 46,
    ReportFull = 47,
    PunchedTooLong = 48,
    NoTapeRoom = 49,
    NoMachine = 50,
    // A code of the XGP that this part leaves out.
    OutsidePart = 60,
    ReservedCode = 61,
    CodeCutShort = 62,
    NegativeWidth = 63,
}

// A reason, and the place that it was found at.
#[derive(Clone, Copy, PartialEq, Eq)]
pub struct Refusal {
    pub reason: Reason,
    pub place: usize,
}

// What an operation answers: the length of what was accepted, or a refusal.
pub type Answer = Result<usize, Refusal>;

impl Reason {
    pub fn number(self) -> u8
        ensures { result ≡ number_in self }
    {
        self as u8
    }

    pub fn at(self, place: usize) -> Refusal
        ensures { result ≡ record { reason = self; place = place } }
    {
        Refusal {
            reason: self,
            place,
        }
    }
}

// A refusal, however it is kept: with a reason, or with any number.
pub trait Numbered: Copy {
    // What it is made of, with a place.
    type Cause: Copy;

    ghost cause_number: { Self.Cause → ℕ };

    ghost number_is: { Self → ℕ };

    ghost place_is: { Self → ℕ };

    fn made_at(cause: Self::Cause, place: usize) -> Self
        ensures number { number_is result ≡ cause_number cause }
        ensures place { place_is result ≡ place };

    fn number(self) -> u8
        ensures { result ≡ number_is self };

    fn place(self) -> usize
        ensures { result ≡ place_is self };
}

impl Numbered for Refusal {
    type Cause = Reason;

    ghost cause_number = { number_in };

    ghost number_is = { λ refusal. number_in refusal.reason };

    ghost place_is = { λ refusal. refusal.place };

    fn made_at(cause: Reason, place: usize) -> Refusal {
        cause.at(place)
    }

    fn number(self) -> u8 {
        self.reason.number()
    }

    fn place(self) -> usize {
        self.place
    }
}

// A number and a place, as they were kept: the number need be no reason's.
impl Numbered for (u8, usize) {
    type Cause = u8;

    ghost cause_number = { λ number. number };

    ghost number_is = { λ kept. kept.0 };

    ghost place_is = { λ kept. kept.1 };

    fn made_at(cause: u8, place: usize) -> (u8, usize) {
        (cause, place)
    }

    fn number(self) -> u8 {
        self.0
    }

    fn place(self) -> usize {
        self.1
    }
}

// Number, place and length.
pub fn numbers<E: Numbered>(answer: Result<usize, E>) -> [usize; 3]
    ensures { result ≡ numbers_of (outcome_by (λ n. n) E.number_is E.place_is answer) }
{
    match answer {
        Ok(length) => [0, 0, length],
        Err(refusal) => [refusal.number() as usize, refusal.place(), 0],
    }
}
