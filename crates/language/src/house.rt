// The house words: words that belong to the language and are no names.
ghost use Rattle.std.specs.Prelude.{◌≡◌};
ghost use Rattle.language.specs.House.{line_word, expression_word, statement_word, house};

use flat::instr::Binary;
use flat::kind::CellKind;

// The word that begins a line; the sorts of lines in their order.
#[derive(Clone, Copy, PartialEq, Eq, PartialOrd, Ord, Debug)]
pub enum Opener {
    Kind,
    Tact,
    Const,
    Cell,
    In,
    Out,
    Proc,
    State,
}

// A question about a process.
#[derive(Clone, Copy, PartialEq, Eq, Debug)]
pub enum Enquiry {
    Active,
    Stopped,
    Failed,
    Passive,
}

// The word that begins an expression.
#[derive(Clone, Copy)]
pub enum TermHead {
    Operate(Binary),
    Not,
    And,
    Or,
    Ask(Enquiry),
}

// The word that begins a statement.
#[derive(Clone, Copy, PartialEq, Eq, Debug)]
pub enum ActHead {
    Put,
    If,
    Do,
    Go,
    Next,
    Start,
    Restart,
    Stop,
    Fail,
    Reset,
    After,
}

// What a house word is there for: to begin a line, an expression or a statement, or to name a kind of cell.
#[derive(Clone, Copy)]
pub enum House {
    Opens(Opener),
    Expression(TermHead),
    Statement(ActHead),
    KindName(CellKind),
}

// What a word is there for in front of a line's items: to begin a line, or to name a kind of cell.
fn line_word(w: &[u8]) -> Option<House>
    ensures { result ≡ line_word w.now }
{
    match w {
        b"kind" => Some(House::Opens(Opener::Kind)),
        b"tact" => Some(House::Opens(Opener::Tact)),
        b"const" => Some(House::Opens(Opener::Const)),
        b"cell" => Some(House::Opens(Opener::Cell)),
        b"in" => Some(House::Opens(Opener::In)),
        b"out" => Some(House::Opens(Opener::Out)),
        b"proc" => Some(House::Opens(Opener::Proc)),
        b"state" => Some(House::Opens(Opener::State)),
        b"long" => Some(House::KindName(CellKind::Long)),
        b"milli" => Some(House::KindName(CellKind::Milli)),
        _ => None,
    }
}

// The expression that a word begins.
fn expression_word(w: &[u8]) -> Option<House>
    ensures { result ≡ expression_word w.now }
{
    let head = match w {
        b"add" => TermHead::Operate(Binary::Add),
        b"sub" => TermHead::Operate(Binary::Sub),
        b"mul" => TermHead::Operate(Binary::Mul),
        b"div" => TermHead::Operate(Binary::Div),
        b"less" => TermHead::Operate(Binary::Less),
        b"same" => TermHead::Operate(Binary::Same),
        b"not" => TermHead::Not,
        b"and" => TermHead::And,
        b"or" => TermHead::Or,
        b"active" => TermHead::Ask(Enquiry::Active),
        b"stopped" => TermHead::Ask(Enquiry::Stopped),
        b"failed" => TermHead::Ask(Enquiry::Failed),
        b"passive" => TermHead::Ask(Enquiry::Passive),
        _ => return None,
    };
    Some(House::Expression(head))
}

// The statement that a word begins.
fn statement_word(w: &[u8]) -> Option<House>
    ensures { result ≡ statement_word w.now }
{
    let head = match w {
        b"put" => ActHead::Put,
        b"if" => ActHead::If,
        b"do" => ActHead::Do,
        b"after" => ActHead::After,
        b"go" => ActHead::Go,
        b"next" => ActHead::Next,
        b"start" => ActHead::Start,
        b"restart" => ActHead::Restart,
        b"stop" => ActHead::Stop,
        b"fail" => ActHead::Fail,
        b"reset" => ActHead::Reset,
        _ => return None,
    };
    Some(House::Statement(head))
}

// What a word is there for, if it is a house word.
#[tactic(auto, unfolding(crate::specs::House::house))]
pub fn house_word(w: &[u8]) -> Option<House>
    ensures { result ≡ house w.now }
{
    line_word(w)
        .or_else(|| expression_word(w))
        .or_else(|| statement_word(w))
}
