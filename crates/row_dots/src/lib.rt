// Rows of bytes, multiplied byte by byte: a sum of products, and a row times a byte, times a row, and times the differences to a point.
// Assumes nothing.

#![tactic(auto, using(crate::proofs::Rows::zeros))]

ghost use Rattle.std.specs.Prelude.{◌≡◌, ◌≤◌, length, get_or, take};
ghost use Rattle.lists.specs.Lists.{tabulate};
ghost use Rattle.gf256.specs.Field.{mul, add};
ghost use Rattle.polynomial.specs.Polynomial.{sum};

use gf256_mul::{multiples_of, times};

// 00 in place of each byte.
pub fn clear(out: &mut [u8])
    ensures { out.new ≡ tabulate (length out.old) (λ j. 0) }
{
    out.fill(0);
}

// The first bytes of a, as many as out has.
pub fn copy(a: &[u8], out: &mut [u8])
    requires { length out.old ≤ length a.now }
    ensures { out.new ≡ take (length out.old) a.now }
{
    let n = out.len();
    out.copy_from_slice(&a[..n]);
}

// The sum of the products a[j] b[j], over the bytes of a.
pub fn dot(a: &[u8], b: &[u8]) -> u8
    requires { length a.now ≤ length b.now }
    ensures { result ≡ sum (length a.now) (λ j. mul (get_or a.now j 0) (get_or b.now j 0)) }
{
    let mut total: u8 = 0;
    for j in 0..a.len() {
        total ^= times(multiples_of(a[j]), b[j]);
    }
    total
}

// c a in place of a.
pub fn scale(c: u8, a: &mut [u8])
    ensures { a.new ≡ tabulate (length a.old) (λ j. mul c (get_or a.old j 0)) }
{
    let m = multiples_of(c);
    for byte in a {
        *byte = times(m, *byte);
    }
}

// a b in place of a, byte by byte.
pub fn scale_by(b: &[u8], a: &mut [u8])
    requires { length a.old ≤ length b.now }
    ensures { a.new ≡ tabulate (length a.old) (λ j. mul (get_or a.old j 0) (get_or b.now j 0)) }
{
    for j in 0..a.len() {
        a[j] = times(multiples_of(a[j]), b[j]);
    }
}

// (y - x) a in place of a, byte by byte.
pub fn scale_by_difference(x: u8, ys: &[u8], a: &mut [u8])
    requires { length a.old ≤ length ys.now }
    ensures { a.new ≡ tabulate (length a.old) (λ j. mul (add (get_or ys.now j 0) x) (get_or a.old j 0)) }
{
    for j in 0..a.len() {
        a[j] = times(multiples_of(ys[j] ^ x), a[j]);
    }
}
