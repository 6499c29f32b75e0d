// What is read from and put to the lines of any host, many lines at a time.
ghost use Rattle.std.specs.Prelude.{◌≡◌};
ghost use Rattle.hosts.specs.Levels.{sensed, settled, cleared};

use crate::Host;
use std::array;

// The latched levels of the lines 0 to 31, with 0 beyond the last line.
pub fn sense<H: Host>(host: &H) -> [i32; 32]
    ensures { result ≡ sensed (H.means.latch host.now) }
{
    array::from_fn(|line| host.level(line))
}

// Puts each line that has a value to it, in number order. The other lines keep what they hold.
#[tactic(auto, using(std::proofs::lemmas::List::take_all))]
pub fn put_all<H: Host>(host: &mut H, puts: &[Option<i32>; 32])
    ensures held { H.means.held host.new ≡ settled puts.now (H.means.held host.old) }
    ensures latch { H.means.latch host.new ≡ H.means.latch host.old }
{
    for (i, put) in puts.iter().enumerate() {
        if let Some(v) = *put {
            host.put(i, v);
        }
    }
}

// Puts the first `n` output lines to 0, or all where there are fewer.
#[tactic(auto, using(crate::proofs::Puts::cleared_more))]
pub fn clear_lines<H: Host>(host: &mut H, n: usize)
    ensures held { H.means.held host.new ≡ cleared n (H.means.held host.old) }
    ensures latch { H.means.latch host.new ≡ H.means.latch host.old }
{
    for i in 0..n {
        host.put(i, 0);
    }
}

// An example on a jig.
#[cfg(test)]
mod tests {
    use super::*;
    use crate::jig::Jig;

    // Line 1 keeps what it was put to when only line 0 is cleared.
    #[test]
    fn many_lines_at_a_time(rt: HostRuntime) {
        let mut jig = Jig::new([1; 32]);
        put_all(&mut jig, &[Some(4); 32]);
        clear_lines(&mut jig, 1);
        assert_eq!(rt; jig.sample(), Ok(()));
        assert_eq!(rt; sense(&jig), [4; 32]);
    }
}
