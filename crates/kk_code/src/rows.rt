//! The rows of a codeword.
use crate::MAX_POINTS;
use kk_rows::RowList;

/// The rows of a codeword, in order: at most [`MAX_POINTS`]. A clause sees their numbers.
pub type CodeRows = RowList<MAX_POINTS>;
