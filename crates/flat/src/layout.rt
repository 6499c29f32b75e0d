// Whether a code is of the layout.
ghost use Rattle.std.specs.Prelude.{◌≡◌, ◌<◌, ◌≤◌, true};
ghost use Rattle.flat.specs.Words.{word, head, body};
ghost use Rattle.flat.specs.Tests.{within, timing_fits, memory_fits, program_fits, head_fits, entry_fits, process_fits, every, instructions_fit, rest_fits, fits};
ghost use Rattle.flat.specs.Layout.{Reads};

use crate::head::Head;
use crate::kind::CellKind;
use crate::operand::{instructions_fit, is_under};
use crate::words::{
    CELLS, INPUTS, INSTRUCTIONS, KIND, OUTPUTS, PROCESSES, TACT, count_at, entry_place,
    instruction_place, instructions_from, number, process_place, word_at,
};

// A code that is not of the layout.
#[derive(Clone, Copy, PartialEq, Eq, Debug)]
pub struct NotFlatCode;

// The longest tact, in milliseconds.
const MAX_TACT: usize = 60000;

// The most cells.
const MAX_CELLS: usize = 64;

// The most inputs, and the most outputs.
const MAX_LINES: usize = 32;

// The most processes.
const MAX_PROCESSES: usize = 32;

// The most states of a process.
const MAX_STATES: usize = 16;

// The most instructions.
const MAX_INSTRUCTIONS: usize = 4096;

// Whether a word is a number from `low` to `high`.
fn is_within(low: usize, high: usize, x: i32) -> bool
    ensures { result ≡ within low high x }
{
    number(x).is_some_and(|n| (low..=high).contains(&n))
}

// Whether the kind is known and the tact within its limits.
#[tactic(auto, using(crate::proofs::KnownKinds::known))]
fn timing_fits(code: &[i32]) -> bool
    ensures { result ≡ timing_fits code.now }
{
    CellKind::try_from(word_at(code, KIND)).is_ok() && is_within(1, MAX_TACT, word_at(code, TACT))
}

// Whether there are no more cells, inputs and outputs than there may be.
fn memory_fits(code: &[i32]) -> bool
    ensures { result ≡ memory_fits code.now }
{
    is_within(0, MAX_CELLS, word_at(code, CELLS))
        && is_within(0, MAX_LINES, word_at(code, INPUTS))
        && is_within(0, MAX_LINES, word_at(code, OUTPUTS))
}

// Whether there are as many processes and instructions as there may be.
fn program_fits(code: &[i32]) -> bool
    ensures { result ≡ program_fits code.now }
{
    is_within(1, MAX_PROCESSES, word_at(code, PROCESSES))
        && is_within(1, MAX_INSTRUCTIONS, word_at(code, INSTRUCTIONS))
}

// Whether the head fits, and the code is as long as it says.
fn head_fits(code: &[i32]) -> bool
    ensures { result ≡ head_fits code.now }
{
    timing_fits(code)
        && memory_fits(code)
        && program_fits(code)
        && code.len() == instruction_place(code, count_at(code, INSTRUCTIONS))
}

// Whether the entry of state `s` of process `q` fits, or is 0 where there is no such state.
fn entry_fits(code: &[i32], q: usize, s: usize) -> bool
    requires { (q < 32) × (s < 16) }
    ensures { result ≡ entry_fits code.now q s }
{
    let entry = word_at(code, entry_place(q, s));
    if s < count_at(code, process_place(q)) {
        is_under(count_at(code, INSTRUCTIONS), entry)
    } else {
        entry == 0
    }
}

// Whether each entry of process `q` fits. That there is such a process stays a clause: a type that says so would be made here only to be taken apart.
#[tactic(auto, unfolding(crate::specs::Tests::every))]
fn entries_fit(code: &[i32], q: usize) -> bool
    requires { q < 32 }
    ensures { result ≡ every (entry_fits code.now q) 16 }
{
    (0..MAX_STATES).all(|s| entry_fits(code, q, s))
}

// Whether process `q` has as many states as it may have, and its entries fit.
fn process_fits(code: &[i32], q: usize) -> bool
    requires { q < 32 }
    ensures { result ≡ process_fits code.now q }
{
    is_within(1, MAX_STATES, word_at(code, process_place(q))) && entries_fit(code, q)
}

// Whether each process fits.
#[tactic(auto, unfolding(crate::specs::Tests::every))]
fn processes_fit(code: &[i32]) -> bool
    requires { word code.now 5 ≤ 32 }
    ensures { result ≡ every (process_fits code.now) (word code.now 5) }
{
    (0..count_at(code, PROCESSES)).all(|q| process_fits(code, q))
}

// Whether each instruction fits.
fn body_fits(code: &[i32]) -> bool
    requires { head_fits code.now ≡ true }
    ensures { result ≡ instructions_fit (head code.now) 0 (body code.now 0) }
{
    instructions_fit(&Head::of(code), instructions_from(code, 0))
}

// Whether the processes and the instructions fit, and the last instruction is end.
fn rest_fits(code: &[i32]) -> bool
    requires { head_fits code.now ≡ true }
    ensures { result ≡ rest_fits code.now }
{
    let last = count_at(code, INSTRUCTIONS) - 1;
    processes_fit(code) && body_fits(code) && word_at(code, instruction_place(code, last)) == 0
}

// Whether a code is of the layout.
#[tactic(auto, unfolding(crate::specs::Tests::fits))]
fn is_flat_code(code: &[i32]) -> bool
    ensures { result ≡ fits code.now }
{
    head_fits(code) && rest_fits(code)
}

// Reads a code: its head, if the code is of the layout.
pub fn read_head(code: &[i32]) -> Result<Head, NotFlatCode>
    ensures { Reads code.now result }
{
    if is_flat_code(code) {
        Ok(Head::of(code))
    } else {
        Err(NotFlatCode)
    }
}
