// An input of bench, from bytes to the lines that are printed.
ghost use Rattle.std.specs.Prelude.{length, IfOk};
ghost use Rattle.benchrun.specs.Bench.{Benched, Answered, sheet_rows, code_room};

use crate::split::tape_start;
use lines::RefusalLine;
use playback::replay::run_code;
use std::alloc::{AllocError, Global};
use text::row::Row;
use translator::translate::translate;

// The most bytes that an input may have.
pub const LIMIT: usize = 61440;

// The rows of the sheet.
const SHEET_ROWS: usize = 4096;

// The most words that a code has: the head, 17 for each of 32 processes, and two for each of 4,096 instructions.
const CODE_ROOM: usize = 8743;

// What is printed for a text and a tape, with this sheet and this room for the code.
fn run_text<'a>(
    heap: Global,
    text: &'a [u8],
    tape: &[u8],
    sheet: &mut [Row<'a>],
    code: &mut [i32],
) -> Result<Vec<u8>, AllocError>
    ensures { IfOk result (λ out. Answered (length sheet.old) (length code.old) text.now tape.now out.items) }
{
    match translate(text, sheet, code) {
        Ok((n, _)) => run_code(heap, &code[..n], tape),
        Err(refusal) => {
            let number = refusal.number();
            let at = refusal.line() as u64;
            RefusalLine { number, at }.into_bytes(heap)
        }
    }
}

// What is printed for a text and a tape.
fn answer(heap: Global, text: &[u8], tape: &[u8]) -> Result<Vec<u8>, AllocError>
    ensures { IfOk result (λ out. Answered sheet_rows code_room text.now tape.now out.items) }
{
    let mut sheet = vec![in heap; Row::Items(0, 0); SHEET_ROWS]?;
    let mut code = vec![in heap; 0; CODE_ROOM]?;
    run_text(heap, text, tape, &mut sheet, &mut code)
}

// What bench prints for an input: the lines of the run of its sequence through its tape, or the line of a refusal.
pub fn bench(heap: Global, input: &[u8]) -> Result<Vec<u8>, AllocError>
    ensures { IfOk result (λ out. Benched input.now out.items) }
{
    if input.len() > LIMIT {
        return RefusalLine::UNREADABLE.into_bytes(heap);
    }
    let (text, tape) = input.split_at(tape_start(input));
    answer(heap, text, tape)
}
