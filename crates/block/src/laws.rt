// What the reader's verdict means: theorems, each the contract of a function that does nothing. Assumes nothing.
ghost use Rattle.block.specs.Layout.{GrantedFilesAreLaidOut, LaidOutFilesAreGranted};

// A file without a fault is three sound fields, one after the other, and nothing else.
pub fn granted_files_are_laid_out()
    ensures { GrantedFilesAreLaidOut }
{}

// Three sound fields, one after the other, make a file without a fault.
pub fn laid_out_files_are_granted()
    ensures { LaidOutFilesAreGranted }
{}
