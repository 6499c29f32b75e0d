// Worked examples of the definitions, computed by the prover.
#![tactic(auto)]

ghost use Rattle.text_examples.specs.Examples.{WorkedExamples};

// Each worked example comes out as it should.
pub fn worked_examples() -> u8
    ensures { WorkedExamples }
{
    0
}
