// The codes of a tape (document 01, "Tape codes").
ghost use Rattle.std.specs.Prelude.{◌≡◌, ◌-◌, ◌%◌, get_or};
ghost use Rattle.typesetter.specs.Code.{machine_of, tilt_of, code_of, controls};

use octets::refusal::Reason;

// The two kinds of machine, by their number of fonts.
#[derive(Clone, Copy, PartialEq, Eq)]
pub enum Machine {
    Four,
    Eight,
}

// What a code asks of an initialized machine. A bool is true for upper, backward and down.
#[derive(Clone, Copy, PartialEq, Eq)]
pub enum Instruction {
    Flash(u8),
    Rail(bool),
    Mag(bool),
    Half(bool),
    EscapeWay(bool),
    LeadWay(bool),
    Tilt(bool),
    Size(u8),
    Stop,
    Cut,
    Lead(u8),
    Escape(u8),
}

// The class of a code.
#[derive(Clone, Copy, PartialEq, Eq)]
pub enum Code {
    Ignored,
    Illegal,
    Initialize,
    Instructs(Instruction),
}

// The low seven bits, complemented.
pub fn escape_size(b: u8) -> u8
    ensures { result ≡ 127 - b % 128 }
{
    !b & 127
}

// The low five bits, complemented.
pub fn lead_size(b: u8) -> u8
    ensures { result ≡ 31 - b % 32 }
{
    !b & 31
}

impl TryFrom<u32> for Machine {
    type Error = Reason;

    ghost try_from_gives = { λ fonts r. r ≡ machine_of fonts };

    fn try_from(fonts: u32) -> Result<Machine, Reason> {
        match fonts {
            4 => Ok(Machine::Four),
            8 => Ok(Machine::Eight),
            _ => Err(Reason::NoMachine),
        }
    }
}

impl Machine {
    // A tilt code: the 4-font machine has none.
    fn tilt(self, down: bool) -> Code
        ensures { result ≡ tilt_of self down }
    {
        match self {
            Machine::Four => Code::Illegal,
            Machine::Eight => Code::Instructs(Instruction::Tilt(down)),
        }
    }

    // The code 0x40 + low.
    fn control(self, low: u8) -> Code
        ensures { result ≡ get_or (controls self) low Code.Illegal }
    {
        match low {
            0 => Code::Initialize,
            1 => Code::Instructs(Instruction::Rail(false)),
            2 => Code::Instructs(Instruction::Rail(true)),
            3 => Code::Instructs(Instruction::Mag(true)),
            4 => Code::Instructs(Instruction::Mag(false)),
            5 => Code::Instructs(Instruction::Half(false)),
            6 => Code::Instructs(Instruction::Half(true)),
            7 => Code::Instructs(Instruction::EscapeWay(false)),
            8 => Code::Instructs(Instruction::EscapeWay(true)),
            9 => Code::Instructs(Instruction::Stop),
            10 => Code::Instructs(Instruction::LeadWay(false)),
            11 => Code::Instructs(Instruction::Cut),
            12 => Code::Instructs(Instruction::LeadWay(true)),
            14 => self.tilt(false),
            15 => self.tilt(true),
            _ => Code::Illegal,
        }
    }

    // The top bits sort a code.
    pub fn classify(self, b: u8) -> Code
        ensures { result ≡ code_of self b }
    {
        if b == 0 {
            Code::Ignored
        } else if b == 255 {
            Code::Illegal
        } else if b >> 7 == 1 {
            Code::Instructs(Instruction::Escape(escape_size(b)))
        } else if b >> 6 == 0 {
            Code::Instructs(Instruction::Flash(b))
        } else if b >> 5 == 3 {
            Code::Instructs(Instruction::Lead(lead_size(b)))
        } else if b >> 4 == 4 {
            self.control(b & 15)
        } else if b == 95 {
            Code::Illegal
        } else {
            Code::Instructs(Instruction::Size(b & 15))
        }
    }
}
