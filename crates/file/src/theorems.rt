// What is true of every sale file that is accepted, as the contracts of calls.
ghost use Rattle.file.specs.FormatLaws.{LawsOfFormat};
ghost use Rattle.file.specs.Theorems.{AcceptedFilesKeepLimits, LawsOfPages};

/// An accepted file keeps the limits of a room: this has no other effect than to ask for the proof.
pub fn accepted_files_keep_limits()
    ensures { AcceptedFilesKeepLimits }
{}

/// The laws of the format stand: this has no other effect than to ask for their proof.
pub fn format_laws_stand()
    ensures { LawsOfFormat }
{}

/// The laws of pages stand: this has no other effect than to ask for their proof.
pub fn page_laws_stand()
    ensures { LawsOfPages }
{}
