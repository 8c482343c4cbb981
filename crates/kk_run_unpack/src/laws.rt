//! Laws of the commands. Each function here does nothing: its contract is the law.
ghost use Rattle.kk_run_unpack.specs.Laws.{NoOtherFileUnpacks, PackedFileUnpacks};

/// What `pack` writes of a file unpacks to the file.
pub fn packed_file_unpacks()
    ensures { PackedFileUnpacks }
{}

/// One dimension beyond the radius, a capture unpacks to the file that was sent, or to none: never to another.
pub fn no_other_file_unpacks()
    ensures { NoOtherFileUnpacks }
{}
