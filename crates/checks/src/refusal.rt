// Why a text is not translated.
ghost use Rattle.std.specs.Prelude.{◌≡◌};
ghost use Rattle.checks.specs.Refusals.{refusal_number, refusal_line, refusal_of};

use text::read::ReadRefusal;

// The text has no byte or more than 32,768; a line is no form; the sheet has too few rows; a form is unknown, has other items than its
// own, or is out of place; a number or a count is past its limit, or something is missing; a name was met before or is a house word;
// a word is undeclared or of a sort not taken there; `next` stands in a last state; the code has too few words.
#[derive(Clone, Copy, PartialEq, Eq, Debug)]
pub enum Refusal {
    Size,
    NoForm(usize),
    ShortSheet,
    Unfit(usize),
    PastLimit(usize),
    NoName(usize),
    Unknown(usize),
    NextInLast(usize),
    ShortCode,
}

// A text that could not be read is refused for the same cause.
impl From<ReadRefusal> for Refusal {
    ghost from_gives = { λ e r. r ≡ refusal_of e };

    fn from(refusal: ReadRefusal) -> Refusal {
        match refusal {
            ReadRefusal::Size => Refusal::Size,
            ReadRefusal::Line(n) => Refusal::NoForm(n),
            ReadRefusal::Short => Refusal::ShortSheet,
        }
    }
}

// Number and line are told by methods and no From: they are the two things that a refusal's line tells, and line 0 stands for none, as it is printed.
impl Refusal {
    // The number by which the refusal is known.
    pub fn number(self) -> u32
        ensures { result ≡ refusal_number self }
    {
        match self {
            Refusal::Size => 1,
            Refusal::NoForm(_) => 2,
            Refusal::Unfit(_) => 3,
            Refusal::PastLimit(_) => 4,
            Refusal::NoName(_) => 5,
            Refusal::Unknown(_) => 6,
            Refusal::NextInLast(_) => 7,
            Refusal::ShortSheet | Refusal::ShortCode => 8,
        }
    }

    // The line at which it is told, from 1, or 0.
    pub fn line(self) -> usize
        ensures { result ≡ refusal_line self }
    {
        match self {
            Refusal::Size | Refusal::ShortSheet | Refusal::ShortCode => 0,
            Refusal::NoForm(n)
            | Refusal::Unfit(n)
            | Refusal::PastLimit(n)
            | Refusal::NoName(n)
            | Refusal::Unknown(n)
            | Refusal::NextInLast(n) => n,
        }
    }
}
