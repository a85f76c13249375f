// The laws of the cipher, as the contract of one call.
ghost use Rattle.cipher.specs.Theorems.{CipherLaws};

/// The laws of the cipher stand: this has no other effect than to ask for their proof.
pub fn cipher_laws_stand()
    ensures { CipherLaws }
{}
