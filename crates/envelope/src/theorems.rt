// The laws of letters, pens and sealed bids, as the contract of one call.
ghost use Rattle.envelope.specs.Theorems.{EnvelopeLaws};

/// The laws of letters, pens and sealed bids stand: this has no other effect than to ask for their proof.
pub fn envelope_laws_stand()
    ensures { EnvelopeLaws }
{}
