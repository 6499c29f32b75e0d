// Forms on a sheet, taken apart: what stands at a row, and at which rows its parts begin.
ghost use Rattle.std.specs.Prelude.{◌≡◌};
ghost use Rattle.language.specs.OnSheet.{inner_row, house_at, count_at, opener_at, second_row, third_row, fourth_row, word_at, digits_at, term_view, act_view, head_view, statement_view};

use crate::house::{ActHead, Enquiry, House, Opener, TermHead, house_word};
use flat::instr::Binary;
use text::row::{Row, next_row, row_at};

// What an expression is made of, and the rows at which its parts begin.
#[derive(Clone, Copy)]
pub enum TermView {
    Number,
    Name,
    Two(Binary, usize, usize),
    Not(usize),
    And(usize, usize),
    Or(usize, usize),
    Ask(Enquiry, usize),
}

// A statement that sets a state or a clock, and the row of the name that it takes.
#[derive(Clone, Copy)]
pub enum Change {
    Go(usize),
    Next,
    Start(usize),
    Restart,
    Stop(usize),
    Halt,
    Fail,
    Reset,
}

// What a statement is made of, and the rows at which its parts begin; of `do` the first row and how many.
#[derive(Clone, Copy)]
pub enum ActView {
    Put(usize, usize),
    When(usize, usize),
    Choose(usize, usize, usize),
    Do(usize, usize),
    After(usize, usize),
    Set(Change),
}

// The row at which a form's items begin.
pub fn inner_row(rows: &[Row], at: usize) -> usize
    ensures { result ≡ inner_row rows.now at }
{
    if at < rows.len() { at + 1 } else { rows.len() }
}

// The row of a form's second item.
// Second, third and fourth by name and not by a number: each contract and each caller wants one of the three.
pub fn second_row(rows: &[Row], at: usize) -> usize
    ensures { result ≡ second_row rows.now at }
{
    next_row(rows, inner_row(rows, at))
}

// The row of a form's third item.
pub fn third_row(rows: &[Row], at: usize) -> usize
    ensures { result ≡ third_row rows.now at }
{
    next_row(rows, second_row(rows, at))
}

// The row of a form's fourth item.
fn fourth_row(rows: &[Row], at: usize) -> usize
    ensures { result ≡ fourth_row rows.now at }
{
    next_row(rows, third_row(rows, at))
}

// How many items the form at a row has.
pub fn count_at(rows: &[Row], at: usize) -> usize
    ensures { result ≡ count_at rows.now at }
{
    match row_at(rows, at) {
        Row::Items(k, _) => k,
        _ => 0,
    }
}

// The word at a row, or no byte.
pub fn word_at<'a>(rows: &[Row<'a>], at: usize) -> &'a [u8]
    ensures { result.now ≡ word_at rows.now at }
{
    match row_at(rows, at) {
        Row::Word(w) => w,
        _ => &[],
    }
}

// The digits at a row, or no byte.
pub fn digits_at<'a>(rows: &[Row<'a>], at: usize) -> &'a [u8]
    ensures { result.now ≡ digits_at rows.now at }
{
    match row_at(rows, at) {
        Row::Number(w) => w,
        _ => &[],
    }
}

// The house word at a row.
pub fn house_at(rows: &[Row], at: usize) -> Option<House>
    ensures { result ≡ house_at rows.now at }
{
    match row_at(rows, at) {
        Row::Word(w) => house_word(w),
        _ => None,
    }
}

// The sort of line that begins at a row.
pub fn opener_at(rows: &[Row], at: usize) -> Option<Opener>
    ensures { result ≡ opener_at rows.now at }
{
    match house_at(rows, inner_row(rows, at))? {
        House::Opens(opener) => Some(opener),
        _ => None,
    }
}

// The expression that a word begins.
fn head_view(rows: &[Row], at: usize, head: TermHead) -> TermView
    ensures { result ≡ head_view rows.now at head }
{
    let a = second_row(rows, at);
    let b = third_row(rows, at);
    match head {
        TermHead::Operate(o) => TermView::Two(o, a, b),
        TermHead::Not => TermView::Not(a),
        TermHead::And => TermView::And(a, b),
        TermHead::Or => TermView::Or(a, b),
        TermHead::Ask(q) => TermView::Ask(q, a),
    }
}

// The expression at a row, taken apart; None where there is none.
pub fn term_view(rows: &[Row], at: usize) -> Option<TermView>
    ensures { result ≡ term_view rows.now at }
{
    match row_at(rows, at) {
        Row::Word(_) => Some(TermView::Name),
        Row::Number(_) => Some(TermView::Number),
        Row::Items(_, _) => match house_at(rows, inner_row(rows, at)) {
            Some(House::Expression(head)) => Some(head_view(rows, at, head)),
            _ => None,
        },
    }
}

// The statement that a word begins.
fn statement_view(rows: &[Row], at: usize, head: ActHead) -> ActView
    ensures { result ≡ statement_view rows.now at head }
{
    let k = count_at(rows, at);
    let a = second_row(rows, at);
    let b = third_row(rows, at);
    match head {
        ActHead::Put => ActView::Put(a, b),
        ActHead::If if k == 3 => ActView::When(a, b),
        ActHead::If => ActView::Choose(a, b, fourth_row(rows, at)),
        ActHead::Do => ActView::Do(a, k.saturating_sub(1)),
        ActHead::After => ActView::After(a, b),
        ActHead::Go => ActView::Set(Change::Go(a)),
        ActHead::Next => ActView::Set(Change::Next),
        ActHead::Start => ActView::Set(Change::Start(a)),
        ActHead::Restart => ActView::Set(Change::Restart),
        ActHead::Stop if k == 1 => ActView::Set(Change::Halt),
        ActHead::Stop => ActView::Set(Change::Stop(a)),
        ActHead::Fail => ActView::Set(Change::Fail),
        ActHead::Reset => ActView::Set(Change::Reset),
    }
}

// The statement at a row, taken apart; None where there is none.
pub fn act_view(rows: &[Row], at: usize) -> Option<ActView>
    ensures { result ≡ act_view rows.now at }
{
    match house_at(rows, inner_row(rows, at)) {
        Some(House::Statement(head)) => Some(statement_view(rows, at, head)),
        _ => None,
    }
}
