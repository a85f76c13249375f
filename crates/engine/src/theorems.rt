// Laws of the permutations, as the contract of one call.
ghost use Rattle.engine.specs.Theorems.{PermutationLaws};

/// The laws of the permutations stand: this has no other effect than to ask for their proof.
pub fn permutation_laws_stand()
    ensures { PermutationLaws }
{}
