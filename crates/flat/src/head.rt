// The head of a flat code.
ghost use Rattle.std.specs.Prelude.{◌≡◌};
ghost use Rattle.flat.specs.Words.{head};

use crate::words::{
    CELLS, INPUTS, INSTRUCTIONS, KIND, OUTPUTS, PROCESSES, TACT, count_at, word_at,
};

// The seven words in front of a code.
#[derive(Clone, Copy, PartialEq, Eq, Debug)]
pub struct Head {
    pub kind: i32,
    pub tact: usize,
    pub cells: usize,
    pub inputs: usize,
    pub outputs: usize,
    pub processes: usize,
    pub instructions: usize,
}

impl Head {
    // The head of any words.
    pub fn of(code: &[i32]) -> Head
        ensures { result ≡ head code.now }
    {
        Head {
            kind: word_at(code, KIND),
            tact: count_at(code, TACT),
            cells: count_at(code, CELLS),
            inputs: count_at(code, INPUTS),
            outputs: count_at(code, OUTPUTS),
            processes: count_at(code, PROCESSES),
            instructions: count_at(code, INSTRUCTIONS),
        }
    }
}
