// What an item of a form is.
ghost use Rattle.std.specs.Prelude.{◌≡◌};
ghost use Rattle.shape.specs.Sorts.{is_word, is_kind, is_number, is_term, is_act, is_timeout, as_line};

use language::house::{House, Opener};

// The sort of an item: a word and what it is there for, a number, or a form that is an expression, a statement, a timeout or a line.
#[derive(Clone, Copy)]
pub enum Sort {
    Word(Option<House>),
    Number,
    Term,
    Act,
    Timeout,
    Line(Opener),
}

impl Sort {
    // Whether an item is a word.
    pub fn is_word(self) -> bool
        ensures { result ≡ is_word self }
    {
        matches!(self, Sort::Word(_))
    }

    // Whether an item is the name of a kind of cell.
    pub fn is_kind(self) -> bool
        ensures { result ≡ is_kind self }
    {
        matches!(self, Sort::Word(Some(House::KindName(_))))
    }

    // Whether an item is a number.
    pub fn is_number(self) -> bool
        ensures { result ≡ is_number self }
    {
        matches!(self, Sort::Number)
    }

    // Whether an item is an expression: a name, a number or a form.
    pub fn is_term(self) -> bool
        ensures { result ≡ is_term self }
    {
        matches!(self, Sort::Word(_) | Sort::Number | Sort::Term)
    }

    // Whether an item is a statement that is no timeout.
    pub fn is_act(self) -> bool
        ensures { result ≡ is_act self }
    {
        matches!(self, Sort::Act)
    }

    // Whether an item is a timeout.
    pub fn is_timeout(self) -> bool
        ensures { result ≡ is_timeout self }
    {
        matches!(self, Sort::Timeout)
    }

    // The sort of line that an item is.
    pub fn as_line(self) -> Option<Opener>
        ensures { result ≡ as_line self }
    {
        match self {
            Sort::Line(opener) => Some(opener),
            _ => None,
        }
    }
}
