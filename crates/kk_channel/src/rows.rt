//! The rows that come out of a channel.
use kk_rows::{MAX_WIDTH, RowList};

/// The most rows that come out of a channel: as many as a row has bits.
pub const MAX_CHANNEL_ROWS: usize = MAX_WIDTH as usize;

/// The rows that come out of a channel, in order: at most [`MAX_CHANNEL_ROWS`]. A clause sees their numbers.
pub type ChannelRows = RowList<MAX_CHANNEL_ROWS>;
