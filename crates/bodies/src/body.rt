// A body of flat code, from its entry to its end.
ghost use Rattle.std.specs.Prelude.{◌≡◌, ◌+◌, ◌*◌, ◌≤◌, length, IfOk};
ghost use Rattle.bodies.specs.Body.{run as runs};
ghost use Rattle.bodies.specs.Memory.{meaning, ran, Sound};

use crate::running::{Running, Turn};
use flat::instr::decode;
use kinds::Kind;
use refusals::Fault;

impl<K: Kind> Running<'_, K> {
    // Runs the body whose first instruction is `first` and stands at the front of `words`: the steps taken.
    // The code is taken apart by a slice pattern, so place and steps are counted beside it.
    pub(crate) fn run(&mut self, turn: Turn, words: &[i32], first: usize) -> Result<u32, Fault>
        requires size { first * 2 + length words.now ≤ 8192 }
        requires sound { Sound (length self.old.cells.now) first words.now }
        ensures result { ran result (meaning K.ops self.new) ≡ runs K.ops turn.entry.seen.now turn.entry.process first words.now 0 0 (meaning K.ops self.old) }
        ensures few { IfOk result (λ n. n ≤ 4096) }
        ensures kept { IfOk result (λ n. length self.new.cells.now ≡ length self.old.cells.now) }
    {
        let mut left = words;
        let mut i = first;
        let mut steps = 0;
        while let [op, operand, rest @ ..] = left {
            steps += 1;
            let Some(n) = self.step(turn, i, decode(*op, *operand))? else {
                return Ok(steps);
            };
            left = &rest[2 * n..];
            i += 1 + n;
        }
        Ok(steps)
    }
}
