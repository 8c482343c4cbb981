//! Laws of the files of receivers. Each function here does nothing: its contract is the law.
ghost use Rattle.kk_outcome.specs.Laws.{OneBeyondIsNoOtherFile};

/// Where no generation is more than one dimension beyond the radius, the file is the one that was sent, or there is none.
pub fn one_beyond_is_no_other_file()
    ensures { OneBeyondIsNoOtherFile }
{}
