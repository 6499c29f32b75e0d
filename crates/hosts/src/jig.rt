// A jig: a host of wires, 32 lines each way, that is down while its lid is open.
ghost use Rattle.std.specs.Prelude.{◌≡◌, ◌≤◌, length, slice_set};
ghost use Rattle.hosts.specs.Meaning.{Sampled};
ghost use Rattle.hosts.specs.JigWires.{wired, jig_means, new_jig, lid_open, lid_shut, Latched, driven};

use crate::{Host, lines};
use std::array;

// The fault of a jig whose lid is open.
#[derive(Clone, Copy, PartialEq, Eq, Debug)]
pub struct LidOpen;

// The output that each input is wired to, the held outputs, the latched inputs, and whether the lid is open.
#[derive(Drop)]
pub struct Jig {
    wiring: [u8; 32],
    held: [i32; 32],
    latch: [i32; 32],
    open: bool,
}

impl Jig {
    // A jig with zeros held and latched, and its lid shut.
    pub fn new(wiring: [u8; 32]) -> Jig
        ensures { result ≡ new_jig wiring }
    {
        Jig {
            wiring,
            held: [0; 32],
            latch: [0; 32],
            open: false,
        }
    }

    // Opens the lid.
    pub fn open(&mut self)
        ensures { self.new ≡ lid_open self.old }
    {
        self.open = true;
    }

    // Shuts the lid.
    pub fn shut(&mut self)
        ensures { self.new ≡ lid_shut self.old }
    {
        self.open = false;
    }

    // What the wires bring to the inputs. By index: an array's `map` first moves each element into a slot of its own, which costs more.
    fn pins(&self) -> [i32; 32]
        ensures { result ≡ wired self.now.held self.now.wiring }
    {
        array::from_fn(|i| lines::level(&self.held, usize::from(self.wiring[i])))
    }
}

impl Host for Jig {
    type Fault = LidOpen;

    ghost means = { jig_means };

    // Always 32.
    fn inputs(&self) -> usize
        ensures value { result ≡ length self.now.latch }
        ensures bound { result ≤ 32 }
        ensures all { result ≡ 32 }
    {
        self.latch.len()
    }

    // Always 32.
    fn outputs(&self) -> usize
        ensures value { result ≡ length self.now.held }
        ensures bound { result ≤ 32 }
        ensures all { result ≡ 32 }
    {
        self.held.len()
    }

    // Latches what the wires bring, or refuses where the lid is open.
    fn sample(&mut self) -> Result<(), LidOpen>
        ensures sampled { Sampled jig_means self.old result self.new }
        ensures latched { Latched self.old result self.new }
    {
        if self.open {
            return Err(LidOpen);
        }
        self.latch = self.pins();
        Ok(())
    }

    // The latched level of line `i`.
    fn level(&self, i: usize) -> i32 {
        lines::level(&self.latch, i)
    }

    // Sets a held output: the wiring, the latch and the lid stay.
    fn put(&mut self, i: usize, v: i32)
        ensures held { self.new.held ≡ slice_set self.old.held i v }
        ensures latch { self.new.latch ≡ self.old.latch }
        ensures after { self.new ≡ driven self.old i v }
    {
        lines::put(&mut self.held, i, v);
    }
}

// An example of a jig.
#[cfg(test)]
mod tests {
    use super::*;

    // An input shows the held output that it is wired to, unless the lid is open.
    #[test]
    fn jig_follows_its_wires(rt: HostRuntime) {
        let mut jig = Jig::new([3; 32]);
        jig.put(3, -9);
        jig.open();
        assert_eq!(rt; jig.sample(), Err(LidOpen));
        assert_eq!(rt; jig.level(31), 0);
        jig.shut();
        assert_eq!(rt; jig.sample(), Ok(()));
        assert_eq!(rt; jig.level(31), -9);
    }
}
