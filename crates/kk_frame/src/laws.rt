//! Laws of frames and events. Each function here does nothing: its contract is the law.
ghost use Rattle.kk_frame.specs.Laws.{FrameIsItsText, FramesHaveTheirOwnTexts, StopIsShortestPrefix, RunningIntakeGoesOn, EndedIntakeTellsAll, CaptureIsCutIntoPieces};

/// A frame is read of a piece exactly where the piece is the text of that frame, which the ticket has.
pub fn frame_is_its_text()
    ensures { FrameIsItsText }
{}

/// Two frames of one ticket with one text are one frame.
pub fn frames_have_their_own_texts()
    ensures { FramesHaveTheirOwnTexts }
{}

/// A gate stops after the shortest prefix of its events with which it ends, or after all of them.
pub fn stop_is_the_shortest_prefix()
    ensures { StopIsShortestPrefix }
{}

/// While an intake runs, the gate goes on to the next event.
pub fn running_intake_goes_on()
    ensures { RunningIntakeGoesOn }
{}

/// Where an intake has ended by an event, the gate stops there: what comes after it changes neither the counts of the gate
/// nor what is taken.
pub fn ended_intake_tells_all()
    ensures { EndedIntakeTellsAll }
{}

/// A capture gives a datagram for each piece, and one for the bytes that remain.
pub fn capture_is_cut_into_pieces()
    ensures { CaptureIsCutIntoPieces }
{}
