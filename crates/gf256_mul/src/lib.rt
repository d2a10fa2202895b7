// The sum and the product of two bytes, by the definitions of the crate gf256. `mul` takes a product from two tables, of the powers of 02 and of
// the logarithms. `times` is for a row that has one factor: the sum of some of eight multiples of that factor, with no table, and compiled to no
// branch, so that a row is multiplied many bytes at a time.
// Assumes nothing.

#![tactic(auto)]

mod tables; // tables.rt: the powers of 02 and the logarithms

ghost use Rattle.std.specs.Prelude.{◌≡◌, ◌*◌, ◌%◌};
ghost use Rattle.gf256.specs.Field.{add, mul};
ghost use Rattle.gf256_mul.specs.Steps.{Doubled};

// A factor times 1, z, z^2 .. z^7.
#[derive(Clone, Copy)]
pub struct Multiples {
    pub m0: u8,
    pub m1: u8,
    pub m2: u8,
    pub m3: u8,
    pub m4: u8,
    pub m5: u8,
    pub m6: u8,
    pub m7: u8,
}

// a times z.
pub fn double(a: u8) -> u8
    ensures { result ≡ mul 2 a }
{
    (a << 1) ^ ((a >> 7) * 0x1D)
}

// The eight multiples of c.
pub fn multiples_of(c: u8) -> Multiples
    ensures { (result.m0 ≡ c) × Doubled result }
{
    let m1 = double(c);
    let m2 = double(m1);
    let m3 = double(m2);
    let m4 = double(m3);
    let m5 = double(m4);
    let m6 = double(m5);
    let m7 = double(m6);
    Multiples {
        m0: c,
        m1: m1,
        m2: m2,
        m3: m3,
        m4: m4,
        m5: m5,
        m6: m6,
        m7: m7,
    }
}

// m for an odd v, and 0 for an even one.
fn if_odd(v: u8, m: u8) -> u8
    ensures { result ≡ v % 2 * m }
{
    if v & 1 == 0 { 0 } else { m }
}

// The factor of m times v: the sum of the multiples at the bits of v.
pub fn times(m: Multiples, v: u8) -> u8
    requires { Doubled m }
    ensures { result ≡ mul m.m0 v }
{
    if_odd(v, m.m0)
        ^ if_odd(v >> 1, m.m1)
        ^ if_odd(v >> 2, m.m2)
        ^ if_odd(v >> 3, m.m3)
        ^ if_odd(v >> 4, m.m4)
        ^ if_odd(v >> 5, m.m5)
        ^ if_odd(v >> 6, m.m6)
        ^ if_odd(v >> 7, m.m7)
}

// The sum of a and b, which is also their difference.
pub fn add(a: u8, b: u8) -> u8
    ensures { result ≡ add a b }
{
    a ^ b
}

// The product of a and b: 00 where a factor is 00, else the power of 02 at the sum of their logarithms, less 255 where it is 255 or more.
pub fn mul(a: u8, b: u8) -> u8
    ensures { result ≡ mul a b }
{
    if a == 0 {
        return 0;
    }
    if b == 0 {
        return 0;
    }
    let n = tables::log(a) as usize + tables::log(b) as usize;
    if n < 255 {
        tables::exp(n)
    } else {
        tables::exp(n - 255)
    }
}
