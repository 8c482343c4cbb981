//! Laws of losses, each the contract of a function that does nothing.
ghost use Rattle.kk_decode.specs.Laws.{DistanceIsTheLoss, MeetByOffsets, PartIsWithinTheRadius};

/// The distance of a codeword from a space is the erased and the injected dimensions.
pub fn distance_is_the_loss()
    ensures { DistanceIsTheLoss }
{}

/// Rows of a space into which at most t dimensions were injected are within distance l - k of the codeword where they have
/// k + 2·t dimensions.
pub fn part_is_within_the_radius()
    ensures { PartIsWithinTheRadius }
{}

/// The dimension that a space has in common with a codeword is its own less that of the offsets of its rows, each the sum
/// of y and the value of the message's polynomial at x.
pub fn meet_by_offsets()
    ensures { MeetByOffsets }
{}
