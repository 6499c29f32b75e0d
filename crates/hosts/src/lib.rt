// Hosts: what a run samples its inputs from and drives its outputs through.
#![tactic(auto)]

pub mod jig;
pub mod levels;
mod lines;
pub mod tape;

ghost use Rattle.std.specs.Prelude.{◌≡◌, ℕ, ◌≤◌, List, length, ℤ, pos, slice_index_or, slice_set};
ghost use Rattle.hosts.specs.Meaning.{Meaning, Sampled};

// A host with a fault of its own kind. `means` is its meaning: what stands at the pins, the latched levels, the held outputs.
pub trait Host {
    type Fault: Drop;

    ghost means: { Meaning Self Self.Fault };

    // The number of input lines.
    fn inputs(&self) -> usize
        ensures value { result ≡ length (means.latch self.now) }
        ensures bound { result ≤ 32 };

    // The number of output lines.
    fn outputs(&self) -> usize
        ensures value { result ≡ length (means.held self.now) }
        ensures bound { result ≤ 32 };

    // Latches what stands at the pins, unless the host is down.
    fn sample(&mut self) -> Result<(), Self::Fault>
        ensures { Sampled means self.old result self.new };

    // The latched level of line `i`, or 0 beyond the last line.
    fn level(&self, i: usize) -> i32
        ensures { result ≡ slice_index_or (means.latch self.now) i (pos 0) };

    // Sets the held output `i`, where there is one: no other output and no latched level changes.
    fn put(&mut self, i: usize, v: i32)
        ensures held { means.held self.new ≡ slice_set (means.held self.old) i v }
        ensures latch { means.latch self.new ≡ means.latch self.old };
}
