// Where the tape begins in an input.
ghost use Rattle.std.specs.Prelude.{◌≡◌};
ghost use Rattle.benchrun.specs.Split.{tape_at};

use memchr::memmem;

// The first place where a tape line begins, or the input's end.
pub fn tape_start(input: &[u8]) -> usize
    ensures { result ≡ tape_at input.now }
{
    memmem::find(input, b"(row").unwrap_or(input.len())
}
