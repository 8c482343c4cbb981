//! Laws of trials, each the contract of a function that does nothing.
ghost use Rattle.kk_trial.specs.Laws.{MadeFileHasItsLength, ReceivedRowsHaveTheLoss, TrialDecodesWithinRadius, TrialFramesAreFrames, DealingIsAPermutation, DealingKeepsRows, FramesAreTaken, TrialGatesGiveAll, TrialIsReceived};

/// The made file has as many bytes as were asked for.
pub fn made_file_has_its_length()
    ensures { MadeFileHasItsLength }
{}

/// What comes out of the channel for a generation are so many independent rows, which lack exactly `erase` dimensions of the
/// codeword and have exactly `inject` that are foreign to it.
pub fn received_rows_have_the_loss()
    ensures { ReceivedRowsHaveTheLoss }
{}

/// On the radius and within it, rows of the span of those that came out of the channel decode to the file's message.
pub fn trial_decodes_within_radius()
    ensures { TrialDecodesWithinRadius }
{}

/// There are so many frames of each generation, and each is a frame of the ticket.
pub fn trial_frames_are_frames()
    ensures { TrialFramesAreFrames }
{}

/// Dealing loses no frame and repeats none.
pub fn dealing_is_a_permutation()
    ensures { DealingIsAPermutation }
{}

/// Over however many gates the frames are dealt, each generation has the rows that came out of the channel.
pub fn dealing_keeps_rows()
    ensures { DealingKeepsRows }
{}

/// Data frames in datagrams of their own are all taken, and the gate ends by Over.
pub fn frames_are_taken()
    ensures { FramesAreTaken }
{}

/// Each gate gives all of its frames, which a receiver takes, and ends by Over.
pub fn trial_gates_give_all()
    ensures { TrialGatesGiveAll }
{}

/// What a receiver takes of all gates are all frames, and of each generation rows that on the radius and within it decode to the
/// file's message.
pub fn trial_is_received()
    ensures { TrialIsReceived }
{}
