//! Carry-less products by windows of four bits (D. Hankerson, A. Menezes and S. Vanstone, "Guide to Elliptic Curve
//! Cryptography", 2004, section 2.3).
ghost use Rattle.std.specs.Prelude.{◌≡◌, ℕ, ◌*◌, ◌^◌, ◌<◌, ◌≤◌, slice_index};
ghost use Rattle.kk_field.specs.Polynomial.{product};

/// The products of `a`, of at most 60 bits, and the numbers below 16.
pub fn narrow_window(a: u64) -> [u64; 16]
    requires { a < 2 ^ 60 }
    ensures { (k : ℕ) → k < 16 → slice_index result k ≡ product a k }
{
    let mut table = [0; 16];
    for j in 1..16 {
        let odd = if j % 2 == 1 { a } else { 0 };
        table[j] = (table[j / 2] << 1) ^ odd;
    }
    table
}

/// The carry-less product of numbers of at most 32 bits, by the digits of four bits of `b`, the highest first.
#[inline(always)]
pub(crate) fn narrow_product(a: u64, b: u64, digits: u32) -> u64
    requires a_below { a < 2 ^ 32 }
    requires few { digits ≤ 8 }
    requires b_below { b < 2 ^ (4 * digits) }
    ensures { result ≡ product a b }
{
    let table = narrow_window(a);
    let mut sum = 0;
    for i in 0..digits {
        let digit = (b >> (4 * (digits - 1 - i))) % 16;
        sum = (sum << 4) ^ table[digit as usize];
    }
    sum
}

/// The carry-less product of numbers of at most 60 bits, by the 15 digits of four bits of `b`, the highest first: a window
/// has room in words of 64 bits, and only the sum takes one of 128.
#[inline(always)]
pub(crate) fn middle_product(a: u64, b: u64) -> u128
    requires a_below { a < 2 ^ 60 }
    requires b_below { b < 2 ^ 60 }
    ensures { result ≡ product a b }
{
    let table = narrow_window(a);
    let mut sum = 0;
    for i in 0..15u32 {
        let digit = (b >> (56 - 4 * i)) % 16;
        let entry = u128::from(table[digit as usize]);
        sum = (sum << 4) ^ entry;
    }
    sum
}

/// The products of `a` and the numbers below 16.
pub fn wide_window(a: u64) -> [u128; 16]
    ensures { (k : ℕ) → k < 16 → slice_index result k ≡ product a k }
{
    let mut table = [0; 16];
    for j in 1..16 {
        let odd = if j % 2 == 1 { u128::from(a) } else { 0 };
        table[j] = (table[j / 2] << 1) ^ odd;
    }
    table
}

/// The carry-less product, by the 16 digits of four bits of `b`, the highest first.
#[inline(always)]
pub(crate) fn wide_product(a: u64, b: u64) -> u128
    ensures { result ≡ product a b }
{
    let table = wide_window(a);
    let mut sum = 0;
    for i in 0..16u32 {
        let digit = (b >> (60 - 4 * i)) % 16;
        sum = (sum << 4) ^ table[digit as usize];
    }
    sum
}
