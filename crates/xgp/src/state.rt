// Where the printer stands, and what each code does (document 02, "The XGP drawer").
ghost use Rattle.std.specs.Prelude.{◌≡◌, [], ◌+◌, ◌*◌, ◌≤◌, pos, ◌+ℤ◌, get_or};
ghost use Rattle.octets.specs.Reach.{reach as reach_of};
ghost use Rattle.sheet.specs.Readable.{font_chars};
ghost use Rattle.xgp.specs.State as S;
ghost use Rattle.xgp.specs.Effect.{effect_of};

use octets::reach;
use xgp_code::Code;
use xgp_code::measure::{Dots, Lines};

// The font; the place to print at next, and the baseline; whether the page's field was given; the baseline's adjustment; the page's number.
#[derive(Clone, Copy)]
pub struct State {
    pub font: u8,
    pub x: Dots,
    pub baseline: Lines,
    pub started: bool,
    pub adjust: Lines,
    pub page: u32,
}

// The state after the code; or the state after a character, with its y.
#[derive(Clone, Copy)]
pub enum Effect {
    Moved(State),
    Set(State, Lines, u8),
}

// The width of character c in this font. A table of four fonts has it.
pub fn width_of(widths: &[i32], font: u8, c: u8) -> i32
    ensures { result ≡ get_or widths.now (font_chars * font + c) (pos 0) }
{
    let i = sheet::FONT_CHARS * usize::from(font) + usize::from(c);
    widths.get(i).copied().unwrap_or(0)
}

impl State {
    pub fn start(spacing: u16) -> State
        ensures { result ≡ S.start spacing }
    {
        State {
            x: Dots(0),
            baseline: Lines(i32::from(spacing)),
            adjust: Lines(0),
            page: 1,
            started: false,
            font: 0,
        }
    }

    // The y of a character, if 32 bits hold it.
    pub fn y_in(self) -> Option<i32>
        ensures { result ≡ reach_of (S.y_in self) }
    {
        reach::difference(self.baseline.0, self.adjust.0)
    }

    // A move to the right, or to the left.
    fn right(self, by: Dots) -> Option<Effect>
        ensures { effect_of self result ≡ S.to_x self (self.x.0 +ℤ by.0) }
    {
        let x = reach::sum(self.x.0, by.0)?;
        Some(Effect::Moved(State { x: Dots(x), ..self }))
    }

    // A move down.
    fn down(self, by: Lines) -> Option<Effect>
        ensures { effect_of self result ≡ S.to_baseline self (self.baseline.0 +ℤ by.0) }
    {
        let y = reach::sum(self.baseline.0, by.0)?;
        Some(Effect::Moved(State {
            baseline: Lines(y),
            ..self
        }))
    }

    // The character c, and a move to the right by its width.
    fn set_char(self, widths: &[i32], c: u8) -> Option<Effect>
        ensures { effect_of self result ≡ S.set_char self c (S.y_in self) (self.x.0 +ℤ S.width_in widths.now self c) }
    {
        let y = self.y_in()?;
        let x = reach::sum(self.x.0, width_of(widths, self.font, c))?;
        Some(Effect::Set(
            State {
                x: Dots(x),
                started: true,
                ..self
            },
            Lines(y),
            c,
        ))
    }

    // FF; the file's length keeps the page's number small.
    fn next_page(self, spacing: u16) -> State
        requires { self.page + 1 ≤ 2147483647 }
        ensures { result ≡ S.next_page spacing self }
    {
        State {
            baseline: Lines(i32::from(spacing)),
            page: self.page + 1,
            started: false,
            ..self
        }
    }

    // The effect of a code; none, if a number leaves 32 bits.
    #[tactic(auto, unfolding(crate::specs::State::effect, crate::specs::State::with_x, crate::specs::State::with_adjust, crate::specs::State::with_font))]
    pub fn effect_of(self, widths: &[i32], spacing: u16, c: Code) -> Option<Effect>
        requires { self.page + 1 ≤ 2147483647 }
        ensures { effect_of self result ≡ S.effect widths.now spacing self c }
    {
        let state = match c {
            Code::Null => self,
            Code::Char(k) => return self.set_char(widths, k),
            Code::LineFeed => return self.down(Lines(i32::from(spacing))),
            Code::FormFeed => self.next_page(spacing),
            Code::Return => State { x: Dots(0), ..self },
            Code::Font(font) => State {
                font,
                adjust: Lines(0),
                ..self
            },
            Code::Column(x) => State { x, ..self },
            Code::Increment(by) => return self.right(by),
            Code::Adjust(adjust) => State { adjust, ..self },
        };
        Some(Effect::Moved(state))
    }
}
