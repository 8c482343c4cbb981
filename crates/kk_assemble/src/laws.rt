//! A law of files and messages. The function here does nothing: its contract is the law.
ghost use Rattle.kk_assemble.specs.Laws.{MessagesMakeTheFile};

/// The messages of all generations of a file make the file.
pub fn messages_make_the_file()
    ensures { MessagesMakeTheFile }
{}
