// The instructions of expressions.
ghost use Rattle.std.specs.Prelude.{◌+◌, ◌*◌, ◌≤◌, length};
ghost use Rattle.language.specs.Named.{Term};
ghost use Rattle.language.specs.OnSheet.{word_at, term_at, term_of};
ghost use Rattle.language.specs.Sizes.{term_size, enquiry_size};
ghost use Rattle.translator.specs.Writing.{names_at, TermEmitted};

use crate::encode::put;
use crate::meaning::{process_at, source_at};
use crate::sheet::Sheet;
use flat::instr::{Instr, Source, Unary};
use language::house::Enquiry;
use language::view::{TermView, term_view};
use measure::size::term_size;
use measure::value::number_at;

// Puts a question about the process whose name stands at a row.
fn emit_enquiry(
    sheet: Sheet,
    enquiry: Enquiry,
    at: usize,
    code: &mut [i32],
    p: usize,
) -> (usize, usize)
    requires short { length code.old ≤ 8192 }
    requires room { 2 * (p + enquiry_size enquiry) ≤ length code.old }
    ensures { TermEmitted (names_at sheet.entry) (Term.ask enquiry (word_at sheet.entry.lines.rows.now at)) p code.old code.new result }
{
    let process = process_at(sheet, at);
    match enquiry {
        Enquiry::Active => (put(code, p, Instr::Push(Source::Active(process))), 1),
        Enquiry::Stopped => (put(code, p, Instr::Push(Source::Stopped(process))), 1),
        Enquiry::Failed => (put(code, p, Instr::Push(Source::Failed(process))), 1),
        Enquiry::Passive => {
            let next = put(code, p, Instr::Push(Source::Active(process)));
            (put(code, next, Instr::Convert(Unary::Not)), 2)
        }
    }
}

// Puts the `and` of the expressions at two rows: where the first does not hold, the second is not evaluated.
#[cycle(expressions)]
fn emit_and(
    sheet: Sheet,
    a: usize,
    b: usize,
    left: usize,
    code: &mut [i32],
    p: usize,
) -> (usize, usize)
    requires short { length code.old ≤ 8192 }
    requires room { 2 * (p + term_size (Term.both (term_at left sheet.lines.rows.now a) (term_at left sheet.lines.rows.now b))) ≤ length code.old }
    ensures { TermEmitted (names_at sheet.entry) (Term.both (term_at left sheet.entry.lines.rows.now a) (term_at left sheet.entry.lines.rows.now b)) p code.old code.new result }
{
    let (unless, m) = emit_term(sheet, a, left, code, p);
    let no = unless + 1 + term_size(sheet.lines.rows, b, left) + 2;
    let second = put(code, unless, Instr::Unless(no));
    let (test, n) = emit_term(sheet, b, left, code, second);
    let jump = put(code, test, Instr::Convert(Unary::Test));
    let last = put(code, jump, Instr::Jump(no + 1));
    let next = put(code, last, Instr::Push(Source::No));
    (next, m + 1 + (n + 2).max(1))
}

// Puts the `or` of the expressions at two rows: where the first holds, the second is not evaluated.
// An `or` puts other instructions in another order than an `and`: one function would be two bodies under an if.
#[cycle(expressions)]
fn emit_or(
    sheet: Sheet,
    a: usize,
    b: usize,
    left: usize,
    code: &mut [i32],
    p: usize,
) -> (usize, usize)
    requires short { length code.old ≤ 8192 }
    requires room { 2 * (p + term_size (Term.either (term_at left sheet.lines.rows.now a) (term_at left sheet.lines.rows.now b))) ≤ length code.old }
    ensures { TermEmitted (names_at sheet.entry) (Term.either (term_at left sheet.entry.lines.rows.now a) (term_at left sheet.entry.lines.rows.now b)) p code.old code.new result }
{
    let (unless, m) = emit_term(sheet, a, left, code, p);
    let otherwise = unless + 3;
    let yes = put(code, unless, Instr::Unless(otherwise));
    let jump = put(code, yes, Instr::Push(Source::Yes));
    let second = put(
        code,
        jump,
        Instr::Jump(otherwise + term_size(sheet.lines.rows, b, left) + 1),
    );
    let (test, n) = emit_term(sheet, b, left, code, second);
    let next = put(code, test, Instr::Convert(Unary::Test));
    (next, m + 1 + 2.max(n + 1))
}

// Puts the expression at a row whose view is given, its parts at most `left` deep.
#[cycle(expressions)]
fn emit_view(
    sheet: Sheet,
    at: usize,
    view: TermView,
    left: usize,
    code: &mut [i32],
    p: usize,
) -> (usize, usize)
    requires short { length code.old ≤ 8192 }
    requires room { 2 * (p + term_size (term_of sheet.lines.rows.now at (term_at left sheet.lines.rows.now) view)) ≤ length code.old }
    ensures { TermEmitted (names_at sheet.entry) (term_of sheet.entry.lines.rows.now at (term_at left sheet.entry.lines.rows.now) view) p code.old code.new result }
{
    match view {
        TermView::Number => (
            put(
                code,
                p,
                Instr::Push(Source::Lit(number_at(sheet.lines.rows, at))),
            ),
            1,
        ),
        TermView::Name => (put(code, p, Instr::Push(source_at(sheet, at))), 1),
        TermView::Two(operation, a, b) => {
            let (second, m) = emit_term(sheet, a, left, code, p);
            let (last, n) = emit_term(sheet, b, left, code, second);
            (put(code, last, Instr::Combine(operation)), m + n + 1)
        }
        TermView::Not(a) => {
            let (last, m) = emit_term(sheet, a, left, code, p);
            (put(code, last, Instr::Convert(Unary::Not)), m + 1)
        }
        TermView::And(a, b) => emit_and(sheet, a, b, left, code, p),
        TermView::Or(a, b) => emit_or(sheet, a, b, left, code, p),
        TermView::Ask(enquiry, name) => emit_enquiry(sheet, enquiry, name, code, p),
    }
}

// Puts the expression at a row, read at most `left` deep, from place p on; answers the place behind it, and how many of its instructions run at most.
#[cycle(expressions)]
pub(crate) fn emit_term(
    sheet: Sheet,
    at: usize,
    left: usize,
    code: &mut [i32],
    p: usize,
) -> (usize, usize)
    requires short { length code.old ≤ 8192 }
    requires room { 2 * (p + term_size (term_at left sheet.lines.rows.now at)) ≤ length code.old }
    ensures { TermEmitted (names_at sheet.entry) (term_at left sheet.entry.lines.rows.now at) p code.old code.new result }
{
    if left == 0 {
        return (put(code, p, Instr::Push(Source::Lit(0))), 1);
    }
    match term_view(sheet.lines.rows, at) {
        Some(view) => emit_view(sheet, at, view, left - 1, code, p),
        None => (put(code, p, Instr::Push(Source::Lit(0))), 1),
    }
}
