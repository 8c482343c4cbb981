//! Tables of an additive map by the bytes of its argument.
ghost use Rattle.std.specs.Prelude.{◌≡◌, ℕ, ◌*◌, ◌^◌, ◌<◌, ◌≤◌, length, slice_index};
ghost use Rattle.kk_field.specs.Field.{residue};
ghost use Rattle.kk_field.specs.Laws.{IsModulus};
ghost use Rattle.kk_rows.specs.AdditiveMap.{IsAdditive};
ghost use Rattle.kk_tables.specs.Tables.{IsTableOf, IsTableUpTo, HasUnits, DoublesBy, byte_at, looked_up};
ghost use Rattle.kk_tables.specs.declared.bytes.TheConstants.{ENTRIES};

use kk_field::Ring;

/// How many entries a table has: one for each value of each of 8 bytes.
pub const ENTRIES: usize = 8 * 256;

/// The image of `x`, which has at most `bytes` bytes, under the additive map of the table: the sum of the images of its
/// bytes.
#[inline(always)]
pub fn image_of(table: &[u64], x: u64, bytes: usize) -> u64
    requires long { length table.now ≡ ENTRIES }
    requires few { bytes ≤ 8 }
    requires x_below { x < 2 ^ (8 * bytes) }
    ensures entries { result ≡ looked_up table.now bytes x }
    ensures image { (image : ℕ → ℕ) → IsAdditive image → IsTableOf image table.now → result ≡ image x }
{
    let mut sum = 0;
    let mut remaining = x;
    for i in 0..bytes {
        sum ^= table[256 * i + (remaining % 256) as usize];
        remaining >>= 8;
    }
    sum
}

/// The product of a residue and X.
fn doubled(ring: &Ring, a: u64) -> u64
    requires { a < 2 ^ ring.now.degree }
    ensures value { result ≡ residue ring.now (a * 2) }
    ensures below { result < 2 ^ ring.now.degree }
{
    let low = ring.low();
    let top = 1 << (ring.m() - 1);
    if a < top {
        a << 1
    } else {
        ((a - top) << 1) ^ low
    }
}

/// The product of a residue and X^times.
fn raised(ring: &Ring, a: u64, times: u32) -> u64
    requires modulus { IsModulus ring.now }
    requires a_below { a < 2 ^ ring.now.degree }
    ensures value { result ≡ residue ring.now (a * 2 ^ times) }
    ensures below { result < 2 ^ ring.now.degree }
{
    let mut power = a;
    for _ in 0..times {
        power = doubled(ring, power);
    }
    power
}

/// The images of 2^0, 2^1, .. 2^63 under the additive map that takes 1 to `one`, and twice a number to X^times times its
/// image.
fn units(ring: &Ring, one: u64, times: u32) -> [u64; 64]
    requires modulus { IsModulus ring.now }
    requires one_below { one < 2 ^ ring.now.degree }
    ensures { (image : ℕ → ℕ) → DoublesBy ring.now times image → image 1 ≡ one → HasUnits image result }
{
    let mut units = [0; 64];
    let mut unit = one;
    for j in 0..64 {
        units[j] = unit;
        unit = raised(ring, unit, times);
    }
    units
}

/// Makes the table of the additive map that takes 1 to `one`, and twice a number to X^times times its image.
pub(crate) fn make_table(table: &mut [u64], ring: &Ring, one: u64, times: u32)
    requires modulus { IsModulus ring.now }
    requires long { length table.old ≡ ENTRIES }
    requires one_below { one < 2 ^ ring.now.degree }
    ensures long { length table.new ≡ ENTRIES }
    ensures value { (image : ℕ → ℕ) → IsAdditive image → DoublesBy ring.now times image → image 1 ≡ one
        → IsTableOf image table.new }
{
    make_table_of(table, &units(ring, one, times));
}

/// Entry n of [`make_table_of`]'s table, from those before it: the image of the highest bit of the byte, and that of the
/// byte without it.
fn entry_of(table: &[u64], units: &[u64], n: usize) -> u64
    requires long { length table.now ≡ ENTRIES }
    requires count { length units.now ≡ 64 }
    requires within { n < ENTRIES }
    ensures { (image : ℕ → ℕ) → IsAdditive image → HasUnits image units.now → IsTableUpTo image n table.now
        → result ≡ image (byte_at n) }
{
    let v = n % 256;
    if v == 0 {
        return 0;
    }
    let top = v.ilog2() as usize;
    units[8 * (n / 256) + top] ^ table[n - (1 << top)]
}

/// Makes the table of the additive map that takes 2^j to `units[j]`, for each bit j of a word.
pub fn make_table_of(table: &mut [u64], units: &[u64])
    requires long { length table.old ≡ ENTRIES }
    requires count { length units.now ≡ 64 }
    ensures long { length table.new ≡ ENTRIES }
    ensures value { (image : ℕ → ℕ) → IsAdditive image → HasUnits image units.now → IsTableOf image table.new }
{
    for n in 0..ENTRIES {
        table[n] = entry_of(table, units, n);
    }
}
