// Worked examples over the definitions: class 1, the resting key. The function does nothing; its contract is the
// list of examples, and specs/ has it in full.
#![tactic(auto)]

ghost use Rattle.examples.specs.Worked.{WorkedExamples};

/// Forms, targets, signatures, verdicts and refusals that were worked out by hand.
pub fn worked_examples()
    ensures { WorkedExamples }
{}
