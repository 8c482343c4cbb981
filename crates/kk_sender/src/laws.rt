//! A law of what is sent. The function here does nothing: its contract is the law.
ghost use Rattle.kk_sender.specs.Laws.{CaptureIsSentPlain};

/// A capture is what a sender sends without combinations, before it is cut into datagrams.
#[tactic(auto, unfolding(crate::specs::SentFrames::packed))]
pub fn capture_is_sent_plain()
    ensures { CaptureIsSentPlain }
{}
