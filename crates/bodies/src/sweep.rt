// All processes of a code, in order.
ghost use Rattle.std.specs.Prelude.{◌≡◌, ◌<◌, ◌≤◌, length, IfOk};
ghost use Rattle.flat.specs.Words.{word};
ghost use Rattle.bodies.specs.Sweep.{visit as visited, sweep as swept};
ghost use Rattle.bodies.specs.Memory.{meaning, ran, sweeps, Runnable};

use crate::running::{Running, Turn};
use flat::words::{PROCESSES, count_at, entry_place, instructions_from, process_place};
use kinds::Kind;
use refusals::{Fault, GivenUp, Place};

impl<K: Kind> Running<'_, K> {
    // Runs the body of the state that process `q` has, if that is among its states. The code stays a slice with a clause: a
    // struct that says it can be run would be made in `advance` alone, for this function and the next.
    fn visit(&mut self, code: &[i32], seen: &[i32; 32], q: usize) -> Result<u32, Fault>
        requires layout { Runnable code.now }
        requires process { q < word code.now 5 }
        requires cells { length self.old.cells.now ≡ word code.now 2 }
        ensures result { ran result (meaning K.ops self.new) ≡ visited K.ops seen.now code.now q (meaning K.ops self.old) }
        ensures few { IfOk result (λ n. n ≤ 4096) }
        ensures kept { IfOk result (λ n. length self.new.cells.now ≡ length self.old.cells.now) }
    {
        let s = self.board.state(q) as usize;
        if s >= count_at(code, process_place(q)) {
            return Ok(0);
        }
        let entry = count_at(code, entry_place(q, s));
        self.depth = 0;
        let turn = Turn { seen, process: q };
        self.run(turn, instructions_from(code, entry), entry)
    }

    // Lets each process run, in order: the steps taken.
    pub(crate) fn sweep(&mut self, code: &[i32], seen: &[i32; 32]) -> Result<u32, GivenUp>
        requires layout { Runnable code.now }
        requires cells { length self.old.cells.now ≡ word code.now 2 }
        ensures result { sweeps result (meaning K.ops self.new) ≡ swept K.ops seen.now code.now (word code.now 5) 0 0 (meaning K.ops self.old) }
        ensures kept { IfOk result (λ n. length self.new.cells.now ≡ length self.old.cells.now) }
    {
        let mut steps = 0;
        for q in 0..count_at(code, PROCESSES) {
            let state = self.board.state(q);
            let place = Place { process: q, state };
            steps += self
                .visit(code, seen, q)
                .map_err(|fault| GivenUp { fault, place })?;
        }
        Ok(steps)
    }
}
