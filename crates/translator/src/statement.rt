// The instructions of statements.
ghost use Rattle.std.specs.Prelude.{◌≡◌, ◌+◌, ◌*◌, ◌≤◌, length};
ghost use Rattle.language.specs.Lines.{body};
ghost use Rattle.language.specs.OnSheet.{term_at, act_at, act_of, acts_of, change_of, line_at};
ghost use Rattle.language.specs.Sizes.{act_size};
ghost use Rattle.flat.specs.declared.instr.Instr.TheVariants.{Unless as UnlessInstr};
ghost use Rattle.translator.specs.Writing.{names_at, put_at, spot_at, ActEmitted};

use crate::encode::put;
use crate::expression::emit_term;
use crate::meaning::{count_at, process_at, state_at, target_at};
use crate::site::Site;
use flat::instr::{Control, Instr, Source};
use language::house::Opener;
use language::line::is_line;
use language::view::{ActView, Change, act_view, count_at as items_at, third_row};
use measure::size::act_size;
use text::items::Items;

// Puts a statement that sets a state or a clock.
fn emit_change(site: Site, change: Change, code: &mut [i32], p: usize) -> (usize, usize)
    requires room { 2 * (p + 1) ≤ length code.old }
    ensures { ActEmitted (names_at site.entry.sheet) (spot_at site.entry) (change_of site.entry.sheet.lines.rows.now change) p code.old code.new result }
{
    let control = match change {
        Change::Go(name) => Control::State(state_at(site.sheet, site.states, name)),
        Change::Next => Control::State(site.here + 1),
        Change::Start(name) => Control::Start(process_at(site.sheet, name)),
        Change::Restart => Control::Start(site.own),
        Change::Stop(name) => Control::Stop(process_at(site.sheet, name)),
        Change::Halt => Control::Stop(site.own),
        Change::Fail => Control::Fail,
        Change::Reset => Control::Reset,
    };
    (put(code, p, Instr::Set(control)), 1)
}

// Puts an `unless` at a place that leads past the statement at a row, and then the statement: it runs only where the top of the stack is true.
#[cycle(statements)]
fn emit_guarded(
    site: Site,
    at: usize,
    left: usize,
    code: &mut [i32],
    unless: usize,
) -> (usize, usize)
    requires short { length code.old ≤ 8192 }
    requires room { 2 * (unless + 1 + act_size (act_at left site.sheet.lines.rows.now at)) ≤ length code.old }
    ensures { ActEmitted (names_at site.entry.sheet) (spot_at site.entry) (act_at left site.entry.sheet.lines.rows.now at) (unless + 1) (put_at unless (UnlessInstr (unless + 1 + act_size (act_at left site.entry.sheet.lines.rows.now at))) code.old) code.new result }
{
    let first = put(
        code,
        unless,
        Instr::Unless(unless + 1 + act_size(site.sheet.lines.rows, at, left)),
    );
    emit_act(site, at, left, code, first)
}

// Puts so many statements from a row on, one behind another.
#[cycle(statements)]
fn emit_acts(
    site: Site,
    first: usize,
    count: usize,
    left: usize,
    code: &mut [i32],
    p: usize,
) -> (usize, usize)
    requires short { length code.old ≤ 8192 }
    requires room { 2 * (p + act_size (acts_of (act_at left site.sheet.lines.rows.now) site.sheet.lines.rows.now first count)) ≤ length code.old }
    ensures { ActEmitted (names_at site.entry.sheet) (spot_at site.entry) (acts_of (act_at left site.entry.sheet.lines.rows.now) site.entry.sheet.lines.rows.now first count) p code.old code.new result }
{
    let statements = Items {
        rows: site.sheet.lines.rows,
        first,
        count,
    };
    let mut next = p;
    let mut most = 0;
    for at in statements.iter() {
        let (behind, m) = emit_act(site, at, left, code, next);
        next = behind;
        most += m;
    }
    (next, most)
}

// Puts the statement whose view is given, its parts at most `left` deep.
#[cycle(statements)]
fn emit_parts(site: Site, view: ActView, left: usize, code: &mut [i32], p: usize) -> (usize, usize)
    requires short { length code.old ≤ 8192 }
    requires room { 2 * (p + act_size (act_of site.sheet.lines.rows.now (term_at left site.sheet.lines.rows.now) (act_at left site.sheet.lines.rows.now) view)) ≤ length code.old }
    ensures { ActEmitted (names_at site.entry.sheet) (spot_at site.entry) (act_of site.entry.sheet.lines.rows.now (term_at left site.entry.sheet.lines.rows.now) (act_at left site.entry.sheet.lines.rows.now) view) p code.old code.new result }
{
    match view {
        ActView::Put(name, value) => {
            let (last, m) = emit_term(site.sheet, value, left, code, p);
            (put(code, last, target_at(site.sheet, name)), m + 1)
        }
        ActView::When(condition, at) => {
            let (unless, m) = emit_term(site.sheet, condition, left, code, p);
            let (next, n) = emit_guarded(site, at, left, code, unless);
            (next, m + 1 + n)
        }
        ActView::Choose(condition, at, other) => {
            let (unless, m) = emit_term(site.sheet, condition, left, code, p);
            let second = unless + 1 + act_size(site.sheet.lines.rows, at, left) + 1;
            let first = put(code, unless, Instr::Unless(second));
            let (jump, n) = emit_act(site, at, left, code, first);
            let behind = put(
                code,
                jump,
                Instr::Jump(second + act_size(site.sheet.lines.rows, other, left)),
            );
            let (next, k) = emit_act(site, other, left, code, behind);
            (next, m + 1 + (n + 1).max(k))
        }
        ActView::Do(from, count) => emit_acts(site, from, count, left, code, p),
        ActView::After(time, at) => {
            let unless = put(
                code,
                p,
                Instr::Push(Source::Late(count_at(site.sheet.lines.rows, time))),
            );
            let (next, n) = emit_guarded(site, at, left, code, unless);
            (next, 2 + n)
        }
        ActView::Set(change) => emit_change(site, change, code, p),
    }
}

// Puts the statement at a row, read at most `left` deep, from place p on; answers the place behind it, and how many of its instructions run at most.
#[cycle(statements)]
fn emit_act(site: Site, at: usize, left: usize, code: &mut [i32], p: usize) -> (usize, usize)
    requires short { length code.old ≤ 8192 }
    requires room { 2 * (p + act_size (act_at left site.sheet.lines.rows.now at)) ≤ length code.old }
    ensures { ActEmitted (names_at site.entry.sheet) (spot_at site.entry) (act_at left site.entry.sheet.lines.rows.now at) p code.old code.new result }
{
    if left == 0 {
        return (p, 0);
    }
    match act_view(site.sheet.lines.rows, at) {
        Some(view) => emit_parts(site, view, left - 1, code, p),
        None => (p, 0),
    }
}

// How deep the forms of a body nest at most.
fn deepest() -> usize
    ensures { result ≡ 12 }
{
    12
}

// Puts the body of the line at a row; what is no state has none.
pub(crate) fn emit_body(site: Site, at: usize, code: &mut [i32], p: usize) -> (usize, usize)
    requires short { length code.old ≤ 8192 }
    requires room { 2 * (p + act_size (body (line_at site.sheet.lines.rows.now at))) ≤ length code.old }
    ensures { ActEmitted (names_at site.entry.sheet) (spot_at site.entry) (body (line_at site.entry.sheet.lines.rows.now at)) p code.old code.new result }
{
    if !is_line(site.sheet.lines.rows, at, Opener::State) {
        return (p, 0);
    }
    let from = third_row(site.sheet.lines.rows, at);
    let count = items_at(site.sheet.lines.rows, at).saturating_sub(2);
    emit_acts(site, from, count, deepest(), code, p)
}
