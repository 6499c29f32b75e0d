// Worked values of the kinds.
ghost use Rattle.std.specs.Prelude.{◌≡◌};
ghost use Rattle.kinds.specs.Worked.{WorkedValues};

// States that each worked value comes out as it should, and returns 0.
pub fn worked_values() -> u8
    ensures values { WorkedValues }
    ensures answer { result ≡ 0 }
{
    0
}
