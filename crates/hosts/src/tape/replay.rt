// The calls of a tape.
ghost use Rattle.std.specs.Prelude.{◌≡◌, ◌≤◌, length, replicate, pos, slice_set};
ghost use Rattle.hosts.specs.Meaning.{Sampled};
ghost use Rattle.hosts.specs.TapeRows.{tape_lines, tape_means, Moved, SameRows};

use crate::tape::{Spent, Tape};
use crate::{Host, lines};

// What a tape has latched before its first sample: as many of these as it has inputs.
static ZEROS: [i32; 32] = [0; 32];

impl<'a> Tape<'a> {
    // A tape at its first row, with zeros latched and held. A width outside 1 to 32 has no inputs.
    pub fn new(rows: &'a [i32], width: usize) -> Tape<'a>
        ensures rest { result.rest.now ≡ rows.now }
        ensures latch { result.latch.now ≡ replicate (tape_lines width) (pos 0) }
        ensures used { result.used ≡ 0 }
        ensures held { result.held ≡ replicate 32 (pos 0) }
    {
        Tape {
            rest: rows,
            latch: ZEROS.get(..width).unwrap_or(&[]),
            used: 0,
            held: [0; 32],
        }
    }
}

impl<'a> Host for Tape<'a> {
    type Fault = Spent;

    ghost means = { tape_means };

    // The width of a row.
    fn inputs(&self) -> usize {
        self.latch.len()
    }

    // Always 32.
    fn outputs(&self) -> usize
        ensures value { result ≡ length self.now.held }
        ensures bound { result ≤ 32 }
        ensures all { result ≡ 32 }
    {
        self.held.len()
    }

    // Latches the next row and moves on by it, or refuses where there is no whole row left.
    fn sample(&mut self) -> Result<(), Spent>
        ensures sampled { Sampled tape_means self.old result self.new }
        ensures moved { Moved self.old result self.new }
    {
        match self.rest.split_at_checked(self.latch.len()) {
            Some((row, rest)) if !row.is_empty() => {
                self.latch = row;
                self.rest = rest;
                self.used += 1;
                Ok(())
            }
            _ => Err(Spent { rows: self.used }),
        }
    }

    // The level of line `i` in the row latched last.
    fn level(&self, i: usize) -> i32 {
        lines::level(self.latch, i)
    }

    // Sets a held output: the rows and their count stay.
    fn put(&mut self, i: usize, v: i32)
        ensures held { self.new.held ≡ slice_set self.old.held i v }
        ensures latch { self.new.latch.now ≡ self.old.latch.now }
        ensures rows { SameRows self.old self.new }
    {
        lines::put(&mut self.held, i, v);
    }
}

// Examples of tapes.
#[cfg(test)]
mod tests {
    use super::*;

    // Two whole rows are played, and then the tape is spent.
    #[test]
    fn tape_plays_its_rows(rt: HostRuntime) {
        let mut tape = Tape::new(&[1, 2, 3, 4, 5], 2);
        assert_eq!(rt; tape.inputs(), 2);
        assert_eq!(rt; tape.sample(), Ok(()));
        assert_eq!(rt; [tape.level(0), tape.level(1), tape.level(2)], [1, 2, 0]);
        assert_eq!(rt; tape.sample(), Ok(()));
        assert_eq!(rt; [tape.level(0), tape.level(1), tape.level(2)], [3, 4, 0]);
        assert_eq!(rt; tape.sample(), Err(Spent { rows: 2 }));
    }

    // A width outside 1 to 32 has no inputs and no row.
    #[test]
    fn tape_of_no_width(rt: HostRuntime) {
        let rows = [7; 64];
        let mut none = Tape::new(&rows, 0);
        let mut wide = Tape::new(&rows, 33);
        assert_eq!(rt; [none.inputs(), wide.inputs()], [0, 0]);
        assert_eq!(rt; none.sample(), Err(Spent { rows: 0 }));
        assert_eq!(rt; wide.sample(), Err(Spent { rows: 0 }));
    }
}
