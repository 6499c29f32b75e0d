// The board: a row for each process, and the output levels.
#![tactic(auto)]

ghost use Rattle.std.specs.Prelude.{◌≡◌, ℕ, ◌<◌, ◌≤◌};
ghost use Rattle.hosts.specs.Levels.{settled};
ghost use Rattle.board.specs.Rows.{state, clock, enter, rewind, ticked, first_board};

pub mod rows;

use rows::Row;

// What a run shows: 32 process rows and 32 output levels.
#[derive(Clone, Copy, PartialEq, Eq, Debug)]
pub struct Board {
    pub rows: [Row; 32],
    pub levels: [i32; 32],
}

// A process's number is bare: it is an instruction's operand or a loop's index, and a type of its own would be made anew at each call.
impl Board {
    // The board at the beginning of a run.
    pub fn new() -> Board
        ensures { result ≡ first_board }
    {
        let mut rows = [Row {
            state: 255,
            clock: 0,
        }; 32];
        rows[0] = Row { state: 0, clock: 0 };
        Board {
            rows,
            levels: [0; 32],
        }
    }

    // The state of process `p`.
    pub fn state(&self, p: usize) -> u8
        requires { p < 32 }
        ensures { result ≡ state self.now p }
    {
        self.rows[p].state
    }

    // The clock of process `p`.
    pub fn clock(&self, p: usize) -> u32
        requires { p < 32 }
        ensures { result ≡ clock self.now p }
    {
        self.rows[p].clock
    }

    // Gives process `p` the state `s` and the clock 0, and keeps all else.
    pub fn enter(&mut self, p: usize, s: u8)
        requires { p < 32 }
        ensures { self.new ≡ enter p s self.old }
    {
        self.rows[p] = Row { state: s, clock: 0 };
    }

    // Sets the clock of process `p` to 0, and keeps all else.
    pub fn rewind(&mut self, p: usize)
        requires { p < 32 }
        ensures { self.new ≡ rewind p self.old }
    {
        self.rows[p].clock = 0;
    }

    // The outputs put take their levels. By index: what is written through `iter_mut` under `zip` is not known afterwards.
    #[tactic(auto, using(std::proofs::lemmas::List::take_all))]
    pub fn settle(&mut self, puts: &[Option<i32>; 32])
        ensures { self.new ≡ record { rows = self.old.rows; levels = settled puts.now self.old.levels } }
    {
        for (i, put) in puts.iter().enumerate() {
            if let Some(v) = *put {
                self.levels[i] = v;
            }
        }
    }

    // The clocks of the first `n` processes rise by one, and stop at their end.
    #[tactic(auto, using(crate::proofs::Commits::ticked_more, crate::proofs::Commits::ticked_front))]
    pub fn tick(&mut self, n: usize)
        requires { n ≤ 32 }
        ensures { self.new ≡ record { rows = ticked n self.old.rows; levels = self.old.levels } }
    {
        for row in &mut self.rows[..n] {
            row.clock = row.clock.saturating_add(1);
        }
    }
}
