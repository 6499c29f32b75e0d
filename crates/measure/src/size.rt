// How many instructions expressions and statements on a sheet take.
ghost use Rattle.std.specs.Prelude.{◌≡◌, ◌+◌};
ghost use Rattle.language.specs.OnSheet.{term_at, term_of, act_at, act_of, acts_in, body_at};
ghost use Rattle.language.specs.Sizes.{enquiry_size, term_size, act_size, capped};

use language::house::Enquiry;
use language::line::body_at;
use language::view::{ActView, TermView, act_view, term_view};
use text::items::Items;
use text::row::Row;

// One instruction more than a code can have: counts go no further.
const PAST: usize = 4097;

// How deep the items of a line are read.
const DEPTH: usize = 12;

// Two sizes together.
pub fn plus(a: usize, b: usize) -> usize
    ensures { result ≡ capped (a + b) }
{
    a.saturating_add(b).min(PAST)
}

// How many instructions a question about a process takes.
fn enquiry_size(enquiry: Enquiry) -> usize
    ensures { result ≡ enquiry_size enquiry }
{
    match enquiry {
        Enquiry::Active | Enquiry::Stopped | Enquiry::Failed => 1,
        Enquiry::Passive => 2,
    }
}

// How many instructions an expression takes whose parts are read at most so deep.
#[cycle(term_size_term_view_size)]
fn term_view_size(rows: &[Row], at: usize, view: TermView, left: usize) -> usize
    ensures { result ≡ capped (term_size (term_of rows.now at (term_at left rows.now) view)) }
{
    match view {
        TermView::Number | TermView::Name => 1,
        TermView::Two(_, a, b) => plus(plus(term_size(rows, a, left), term_size(rows, b, left)), 1),
        TermView::Not(a) => plus(term_size(rows, a, left), 1),
        TermView::And(a, b) | TermView::Or(a, b) => plus(
            plus(term_size(rows, a, left), term_size(rows, b, left)),
            4,
        ),
        TermView::Ask(enquiry, _) => enquiry_size(enquiry),
    }
}

// How many instructions the expression at a row takes, read at most so deep.
#[cycle(term_size_term_view_size)]
pub fn term_size(rows: &[Row], at: usize, left: usize) -> usize
    ensures { result ≡ capped (term_size (term_at left rows.now at)) }
{
    if left == 0 {
        return 1;
    }
    match term_view(rows, at) {
        Some(view) => term_view_size(rows, at, view, left - 1),
        None => 1,
    }
}

// How many instructions a statement takes whose parts are read at most so deep.
#[cycle(act_size_act_view_size_acts_size)]
fn act_view_size(rows: &[Row], view: ActView, left: usize) -> usize
    ensures { result ≡ capped (act_size (act_of rows.now (term_at left rows.now) (act_at left rows.now) view)) }
{
    match view {
        ActView::Put(_, e) => plus(term_size(rows, e, left), 1),
        ActView::When(e, s) => plus(plus(term_size(rows, e, left), act_size(rows, s, left)), 1),
        ActView::Choose(e, s, t) => {
            let either = plus(act_size(rows, s, left), act_size(rows, t, left));
            plus(plus(term_size(rows, e, left), either), 2)
        }
        ActView::Do(first, count) => acts_size(Items { rows, first, count }, left),
        ActView::After(_, s) => plus(act_size(rows, s, left), 2),
        ActView::Set(_) => 1,
    }
}

// How many instructions the statement at a row takes, read at most so deep.
#[cycle(act_size_act_view_size_acts_size)]
pub fn act_size(rows: &[Row], at: usize, left: usize) -> usize
    ensures { result ≡ capped (act_size (act_at left rows.now at)) }
{
    if left == 0 {
        return 0;
    }
    match act_view(rows, at) {
        Some(view) => act_view_size(rows, view, left - 1),
        None => 0,
    }
}

// How many instructions statements one behind another take.
#[cycle(act_size_act_view_size_acts_size)]
fn acts_size(acts: Items, left: usize) -> usize
    ensures { result ≡ capped (act_size (acts_in (act_at left acts.entry.rows.now) acts.entry)) }
{
    let mut size = 0;
    for at in acts.iter() {
        size = plus(size, act_size(acts.rows, at, left));
    }
    size
}

// How many instructions the body of the state line at a row takes.
pub fn body_size(rows: &[Row], at: usize) -> usize
    ensures { result ≡ capped (act_size (body_at rows.now at)) }
{
    acts_size(body_at(rows, at), DEPTH)
}
