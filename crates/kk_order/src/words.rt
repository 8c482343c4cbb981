//! The seed that a word is, and the limits of numbers.
ghost use Rattle.std.specs.Prelude.{◌≡◌, option_map};
ghost use Rattle.kk_order.specs.Seed.{seed_of};

use hex::FromHex;

/// The most quiets in a row that `--idle` may name.
pub const QUIETS_LIMIT: u64 = 1_000_000;

/// The most datagrams that `--most` may name.
pub const DATAGRAMS_LIMIT: u64 = 100_000_000;

/// The seed that a word of 64 hexadecimal digits is.
pub fn seed_in(word: Option<&str>) -> Option<[u8; 32]>
    ensures { result ≡ seed_of (option_map (λ w. w.now) word.entry) }
{
    <[u8; 32] as FromHex>::from_hex(word?).ok()
}
