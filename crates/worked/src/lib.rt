//! The worked examples of the definitions, as the contract of one call. The crate stands at the top, so that a definition that an example
//! computes can change without another proof of the layers above it.
#![tactic(auto)]

ghost use Rattle.worked.specs.Examples.{WorkedExamples};

/// The worked examples stand: this has no other effect than to ask for their proof.
pub fn worked_examples_stand()
    ensures { WorkedExamples }
{}
