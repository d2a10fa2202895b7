// The inverse of a byte, and the sum of a row and a multiple of another, by the definitions of the crate gf256.
// Assumes nothing.

#![tactic(auto)]

ghost use Rattle.std.specs.Prelude.{◌≡◌};
ghost use Rattle.gf256.specs.Field.{inverse, add_scaled};

use gf256_mul::{mul, multiples_of, times};

// The byte whose product with a is 1; 0 for 0, which has none.
pub fn inverse(a: u8) -> u8
    ensures { result ≡ inverse a }
{
    let a2 = mul(a, a);
    let a4 = mul(a2, a2);
    let a8 = mul(a4, a4);
    let a16 = mul(a8, a8);
    let a32 = mul(a16, a16);
    let a64 = mul(a32, a32);
    let a128 = mul(a64, a64);
    mul(
        a2,
        mul(a4, mul(a8, mul(a16, mul(a32, mul(a64, mul(a128, 1)))))),
    )
}

// Adds c times row to acc, byte by byte, as far as both go.
pub fn add_scaled(c: u8, row: &[u8], acc: &mut [u8])
    ensures { acc.new ≡ add_scaled c row.now acc.old }
{
    let m = multiples_of(c);
    let n = row.len().min(acc.len());
    for j in 0..n {
        acc[j] ^= times(m, row[j]);
    }
}
