// How many lines of each sort there are, and how many instructions they take.
ghost use Rattle.std.specs.Prelude.{◌≡◌, ◌<◌, []};
ghost use Rattle.language.specs.Causes.{most, instructions as instructions_of};
ghost use Rattle.language.specs.OnSheet.{line_at};
ghost use Rattle.language.specs.Sizes.{capped};
ghost use Rattle.limits.specs.Tallies.{place, full, tally_of, with_line};

use language::house::Opener;
use language::line::{is_line, rank, sort_at};
use measure::size::{body_size, plus};
use text::row::Row;

// The place of a sort among the counts.
fn place(sort: Opener) -> usize
    ensures is { result ≡ place sort }
    ensures within { result < 8 }
{
    rank(sort) as usize - 1
}

// How many instructions the line at a row takes.
fn instructions_at(rows: &[Row], at: usize) -> usize
    ensures { result ≡ capped (instructions_of (line_at rows.now at)) }
{
    if is_line(rows, at, Opener::State) {
        plus(body_size(rows, at), 1)
    } else {
        0
    }
}

// How many lines of a sort there may be, states in each process.
fn most(sort: Opener) -> usize
    ensures { result ≡ most sort }
{
    match sort {
        Opener::Kind | Opener::Tact => 1,
        Opener::Const | Opener::Cell => 64,
        Opener::In | Opener::Out | Opener::Proc => 32,
        Opener::State => 16,
    }
}

// Counts over lines, each up to one more than a code can have instructions: those of each sort, and of states those of the last process.
#[derive(Clone, Copy)]
pub struct Tally {
    pub lines: [usize; 8],
    pub instructions: usize,
}

impl Tally {
    // The counts over no line.
    pub fn new() -> Tally
        ensures { result ≡ tally_of [] }
    {
        Tally {
            lines: [0; 8],
            instructions: 0,
        }
    }

    // The counts with the line at a row: a line that is no state ends the states of a process.
    pub fn with_line(mut self, rows: &[Row], at: usize) -> Tally
        ensures { result ≡ with_line self (line_at rows.now at) }
    {
        if !is_line(rows, at, Opener::State) {
            self.lines[place(Opener::State)] = 0;
        }
        let i = place(sort_at(rows, at));
        self.lines[i] = plus(self.lines[i], 1);
        self.instructions = plus(self.instructions, instructions_at(rows, at));
        self
    }

    // Whether a line of a sort is one too many behind those that are counted.
    pub fn is_full(self, sort: Opener) -> bool
        ensures { result ≡ full self sort }
    {
        self.lines[place(sort)] >= most(sort)
    }
}
