// Words that stand for nothing, or for something of a sort not taken there.
ghost use Rattle.std.specs.Prelude.{◌≡◌, not, [], is_some};
ghost use Rattle.language.specs.Basics.{found};
ghost use Rattle.language.specs.Causes.{first_unknown};
ghost use Rattle.language.specs.Lines.{body, declared, own_states};
ghost use Rattle.language.specs.OnSheet.{act_at, act_of, acts_in, change_of, lines_of, term_at, term_of, word_at};
ghost use Rattle.language.specs.Resolve.{all_names, known};
ghost use Rattle.language.specs.declared.house.Opener.TheVariants.{Proc, State};
ghost use Rattle.naming.specs.Scopes.{known_in, term_known_in};
ghost use Rattle.naming.specs.Splits.{line_of};
ghost use Rattle.naming.specs.Spots.{back_of};

use crate::spot::{DEPTH, Spot, Spots};
use language::house::Opener;
use language::line::{body_at, is_line};
use language::view::{ActView, Change, TermView, act_view, term_view, word_at};
use lookup::{count_states, find_name, target_named, thing_named};
use text::items::Items;
use text::row::Row;

// The lines that a body's words are looked up in: all of a text, and the states of the body's own process.
#[derive(Clone, Copy)]
struct Scope<'s, 'a> {
    lines: Items<'s, 'a>,
    states: Items<'s, 'a>,
}

// Whether the word at a row names a process.
fn is_process(rows: &[Row], lines: Items, at: usize) -> bool
    ensures { result ≡ is_some (found (word_at rows.now at) (declared Proc (lines_of lines.entry))) }
{
    find_name(lines, Opener::Proc, word_at(rows, at)).is_some()
}

// Whether the word at a row names a state of the own process.
fn is_own_state(rows: &[Row], scope: Scope, at: usize) -> bool
    ensures { result ≡ is_some (found (word_at rows.now at) (declared State (lines_of scope.entry.states))) }
{
    find_name(scope.states, Opener::State, word_at(rows, at)).is_some()
}

// Whether every name in an expression is known, its parts read at most so deep.
#[cycle(term_known_term_view_known)]
fn term_view_known(rows: &[Row], lines: Items, at: usize, view: TermView, left: usize) -> bool
    ensures { result ≡ term_known_in lines.entry (term_of rows.now at (term_at left rows.now) view) }
{
    match view {
        TermView::Number => true,
        TermView::Name => thing_named(lines, word_at(rows, at)).is_some(),
        TermView::Two(_, a, b) | TermView::And(a, b) | TermView::Or(a, b) => {
            term_known(rows, lines, a, left) && term_known(rows, lines, b, left)
        }
        TermView::Not(a) => term_known(rows, lines, a, left),
        TermView::Ask(_, p) => is_process(rows, lines, p),
    }
}

// Whether every name in the expression at a row is known, read at most so deep.
#[cycle(term_known_term_view_known)]
fn term_known(rows: &[Row], lines: Items, at: usize, left: usize) -> bool
    ensures { result ≡ term_known_in lines.entry (term_at left rows.now at) }
{
    if left == 0 {
        return true;
    }
    match term_view(rows, at) {
        Some(view) => term_view_known(rows, lines, at, view, left - 1),
        None => true,
    }
}

// Whether the name in a statement that sets a state or a clock is known.
fn change_known(rows: &[Row], scope: Scope, change: Change) -> bool
    ensures { result ≡ known_in scope.entry (change_of rows.now change) }
{
    match change {
        Change::Go(s) => is_own_state(rows, scope, s),
        Change::Start(p) | Change::Stop(p) => is_process(rows, scope.lines, p),
        _ => true,
    }
}

// Whether every name in a statement is known, its parts read at most so deep.
#[cycle(act_known_act_view_known_acts_known)]
fn act_view_known(rows: &[Row], scope: Scope, view: ActView, left: usize) -> bool
    ensures { result ≡ known_in scope.entry (act_of rows.now (term_at left rows.now) (act_at left rows.now) view) }
{
    match view {
        ActView::Put(n, e) => target_named(scope.lines, word_at(rows, n)).is_some()
            && term_known(rows, scope.lines, e, left),
        ActView::When(e, s) => term_known(rows, scope.lines, e, left)
            && act_known(rows, scope, s, left),
        ActView::Choose(e, s, t) => {
            term_known(rows, scope.lines, e, left)
                && act_known(rows, scope, s, left)
                && act_known(rows, scope, t, left)
        }
        ActView::Do(first, count) => acts_known(scope, Items { rows, first, count }, left),
        ActView::After(_, s) => act_known(rows, scope, s, left),
        ActView::Set(change) => change_known(rows, scope, change),
    }
}

// Whether every name in the statement at a row is known, read at most so deep.
#[cycle(act_known_act_view_known_acts_known)]
fn act_known(rows: &[Row], scope: Scope, at: usize, left: usize) -> bool
    ensures { result ≡ known_in scope.entry (act_at left rows.now at) }
{
    if left == 0 {
        return true;
    }
    match act_view(rows, at) {
        Some(view) => act_view_known(rows, scope, view, left - 1),
        None => true,
    }
}

// Whether every name in statements one behind another is known.
#[cycle(act_known_act_view_known_acts_known)]
fn acts_known(scope: Scope, acts: Items, left: usize) -> bool
    ensures { result ≡ known_in scope.entry (acts_in (act_at left acts.entry.rows.now) acts.entry) }
{
    for at in acts.iter() {
        if !act_known(acts.rows, scope, at, left) {
            return false;
        }
    }
    true
}

// Whether a name in a line's body is not known, of a line among these.
fn has_unknown(lines: Items, spot: Spot) -> bool
    ensures { result ≡ not (known (all_names (lines_of lines.entry)) (declared State (own_states (back_of spot.entry.before) (line_of spot.entry) (lines_of spot.entry.behind))) (body (line_of spot.entry))) }
{
    if is_line(spot.before.rows, spot.at, Opener::State) {
        let count = spot.states.count + 1 + count_states(spot.behind);
        let states = Items {
            count,
            ..spot.states
        };
        let acts = body_at(spot.before.rows, spot.at);
        !acts_known(Scope { lines, states }, acts, DEPTH)
    } else {
        false
    }
}

// The first line with a word that is not declared, or is of a sort not taken there.
pub fn first_unknown(lines: Items) -> Option<usize>
    ensures { result ≡ first_unknown [] (lines_of lines.entry) }
{
    Spots::of(lines)
        .position(|spot| has_unknown(lines, spot))
        .map(|i| i + 1)
}
