// Whether an instruction is known and its operand fits.
ghost use Rattle.std.specs.Prelude.{◌≡◌};
ghost use Rattle.flat.specs.Tests.{under, ahead, operand_fits, instruction_fits, instructions_fit};

use crate::head::Head;
use crate::words::number;

// Whether a word is a number below a limit.
pub(crate) fn is_under(limit: usize, x: i32) -> bool
    ensures { result ≡ under limit x }
{
    number(x).is_some_and(|n| n < limit)
}

// Whether a word is an instruction behind instruction `i`, of `total`.
fn is_ahead(i: usize, total: usize, x: i32) -> bool
    ensures { result ≡ ahead i total x }
{
    number(x).is_some_and(|n| i < n && n < total)
}

// Whether the operand `x` of instruction `i`, whose number is `o`, fits.
fn operand_fits(head: &Head, i: usize, o: usize, x: i32) -> bool
    ensures { result ≡ operand_fits head.now i o x }
{
    match o {
        0 | 5..=14 | 22..=23 if x == 0 => true,
        1 => true,
        2 | 17 if is_under(head.cells, x) => true,
        3 if is_under(head.inputs, x) => true,
        4 | 18 if is_under(head.outputs, x) => true,
        15..=16 if is_ahead(i, head.instructions, x) => true,
        19 if is_under(16, x) => true,
        24 if is_under(65536, x) => true,
        20..=21 | 25..=27 if is_under(head.processes, x) => true,
        _ => false,
    }
}

// Whether instruction `i` has one of the known numbers, and its operand fits.
fn instruction_fits(head: &Head, i: usize, op: i32, x: i32) -> bool
    ensures { result ≡ instruction_fits head.now i op x }
{
    let Some(o) = number(op) else {
        return false;
    };
    operand_fits(head, i, o, x)
}

// Whether each of the instructions in `words` fits. A code is taken apart by a slice pattern here and where it runs, so the number is counted beside it.
pub(crate) fn instructions_fit(head: &Head, words: &[i32]) -> bool
    ensures { result ≡ instructions_fit head.now 0 words.now }
{
    let mut left = words;
    let mut i = 0;
    while let [op, x, rest @ ..] = left {
        if !instruction_fits(head, i, *op, *x) {
            return false;
        }
        left = rest;
        i += 1;
    }
    left.is_empty()
}
