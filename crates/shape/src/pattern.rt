// Which items each form of the language takes.
ghost use Rattle.std.specs.Prelude.{◌≡◌};
ghost use Rattle.shape.specs.Patterns.{taking, moved, form_start, line_start, term_pattern, act_pattern, line_pattern, head_pattern, opener_pattern, after, ended};

use crate::sort::Sort;
use language::house::{ActHead, House, Opener, TermHead};

// What may come next in a form: the word that begins an expression or a statement, the word that begins a line, nothing,
// one item of a sort, one or none, any number of statements, or any number of statements with a timeout as the last one or none.
#[derive(Clone, Copy)]
pub enum Expect {
    FormWord,
    LineWord,
    Nothing,
    Word,
    KindName,
    Number,
    Term,
    Act,
    MaybeWord,
    MaybeAct,
    Acts,
    Body,
}

// The items that a form may still take, in order, and what the whole form then is, once its first word tells.
// Three fields, and no slice: contracts compare a slice that is held in a struct by its address too.
#[derive(Clone, Copy)]
pub struct Pattern {
    pub first: Expect,
    pub second: Expect,
    pub third: Expect,
    pub whole: Option<Sort>,
}

// The pattern of a form that takes up to three items.
fn taking(first: Expect, second: Expect, third: Expect, whole: Sort) -> Pattern
    ensures { result ≡ taking first second third whole }
{
    Pattern {
        first,
        second,
        third,
        whole: Some(whole),
    }
}

// The pattern of any form of which the first word is to come.
fn start(first: Expect) -> Pattern
    ensures { result ≡ record { first = first; second = Expect.Nothing; third = Expect.Nothing; whole = None } }
{
    Pattern {
        first,
        second: Expect::Nothing,
        third: Expect::Nothing,
        whole: None,
    }
}

// The pattern of any expression or statement.
pub fn form_start() -> Pattern
    ensures { result ≡ form_start }
{
    start(Expect::FormWord)
}

// The pattern of any line.
pub fn line_start() -> Pattern
    ensures { result ≡ line_start }
{
    start(Expect::LineWord)
}

// The items of each expression.
fn term_pattern(head: TermHead) -> Pattern
    ensures { result ≡ term_pattern head }
{
    match head {
        TermHead::Operate(_) | TermHead::And | TermHead::Or => {
            taking(Expect::Term, Expect::Term, Expect::Nothing, Sort::Term)
        }
        TermHead::Not => taking(Expect::Term, Expect::Nothing, Expect::Nothing, Sort::Term),
        TermHead::Ask(_) => taking(Expect::Word, Expect::Nothing, Expect::Nothing, Sort::Term),
    }
}

// The items of each statement.
fn act_pattern(head: ActHead) -> Pattern
    ensures { result ≡ act_pattern head }
{
    match head {
        ActHead::Put => taking(Expect::Word, Expect::Term, Expect::Nothing, Sort::Act),
        ActHead::If => taking(Expect::Term, Expect::Act, Expect::MaybeAct, Sort::Act),
        ActHead::Do => taking(Expect::Act, Expect::Acts, Expect::Nothing, Sort::Act),
        ActHead::Go | ActHead::Start => {
            taking(Expect::Word, Expect::Nothing, Expect::Nothing, Sort::Act)
        }
        ActHead::Stop => taking(
            Expect::MaybeWord,
            Expect::Nothing,
            Expect::Nothing,
            Sort::Act,
        ),
        ActHead::Next | ActHead::Restart | ActHead::Fail | ActHead::Reset => {
            taking(Expect::Nothing, Expect::Nothing, Expect::Nothing, Sort::Act)
        }
        ActHead::After => taking(Expect::Number, Expect::Act, Expect::Nothing, Sort::Timeout),
    }
}

// The items of each line.
fn line_pattern(opener: Opener) -> Pattern
    ensures { result ≡ line_pattern opener }
{
    let (first, second) = match opener {
        Opener::Kind => (Expect::KindName, Expect::Nothing),
        Opener::Tact => (Expect::Number, Expect::Nothing),
        Opener::Const => (Expect::Word, Expect::Number),
        Opener::Cell | Opener::In | Opener::Out | Opener::Proc => (Expect::Word, Expect::Nothing),
        Opener::State => (Expect::Word, Expect::Body),
    };
    taking(first, second, Expect::Nothing, Sort::Line(opener))
}

// The items that follow the word which begins an expression or a statement.
fn head_pattern(item: Sort) -> Option<Pattern>
    ensures { result ≡ head_pattern item }
{
    match item {
        Sort::Word(Some(House::Expression(head))) => Some(term_pattern(head)),
        Sort::Word(Some(House::Statement(head))) => Some(act_pattern(head)),
        _ => None,
    }
}

// The items that follow the word which begins a line.
fn opener_pattern(item: Sort) -> Option<Pattern>
    ensures { result ≡ opener_pattern item }
{
    match item {
        Sort::Word(Some(House::Opens(opener))) => Some(line_pattern(opener)),
        _ => None,
    }
}

// What is left behind one item, if it was the one to come.
fn moved(fits: bool, p: Pattern) -> Option<Pattern>
    ensures { result ≡ moved fits p }
{
    fits.then_some(Pattern {
        first: p.second,
        second: p.third,
        third: Expect::Nothing,
        whole: p.whole,
    })
}

// What may still come behind an item, if it was one that may come.
pub fn after(p: Pattern, item: Sort) -> Option<Pattern>
    ensures { result ≡ after p item }
{
    match p.first {
        Expect::FormWord => head_pattern(item),
        Expect::LineWord => opener_pattern(item),
        Expect::Nothing => None,
        Expect::Word | Expect::MaybeWord => moved(item.is_word(), p),
        Expect::KindName => moved(item.is_kind(), p),
        Expect::Number => moved(item.is_number(), p),
        Expect::Term => moved(item.is_term(), p),
        Expect::Act | Expect::MaybeAct => moved(item.is_act(), p),
        Expect::Acts => item.is_act().then_some(p),
        Expect::Body if item.is_act() => Some(p),
        Expect::Body => moved(item.is_timeout(), p),
    }
}

// What a form is that has no item more, if it may end here.
pub fn ended(p: Pattern) -> Option<Sort>
    ensures { result ≡ ended p }
{
    match p.first {
        Expect::Nothing | Expect::MaybeWord | Expect::MaybeAct | Expect::Acts | Expect::Body =>
            p.whole,
        _ => None,
    }
}
