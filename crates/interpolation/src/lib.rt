// Polynomials over the field of 256 elements: values by Horner, interpolation by Newton, in place, by the definitions of the crate polynomial.
// Assumes nothing.

#![tactic(auto)]

ghost use Rattle.std.specs.Prelude.{◌≡◌, length};
ghost use Rattle.lists.specs.Lists.{tabulate};
ghost use Rattle.gf256.specs.Field.{mul, inverse};
ghost use Rattle.polynomial.specs.Polynomial.{eval, stepped, slopes, interpolate};

// The product of a and b, with no table: the multiples of a at the bits of b.
pub fn product(a: u8, b: u8) -> u8
    ensures { result ≡ mul a b }
{
    gf256_mul::times(gf256_mul::multiples_of(a), b)
}

// The value of the polynomial p at x, from the highest coefficient down.
pub fn eval(p: &[u8], x: u8) -> u8
    ensures { result ≡ eval p.now x }
{
    let mut acc: u8 = 0;
    for i in (0..p.len()).rev() {
        let t = product(x, acc);
        acc = gf256_mul::add(p[i], t);
    }
    acc
}

// v + (X - a) q(X) in place: q[0] is v, the rest q.
pub fn step(a: u8, q: &mut [u8])
    ensures { q.new ≡ stepped a q.old }
{
    for j in 1..q.len() {
        let t = product(a, q[j]);
        q[j - 1] = gf256_mul::add(q[j - 1], t);
    }
}

// Fills a table with the inverse of each byte, at its place: for interpolation, which looks an inverse up at each divided difference.
pub fn fill_inverses(table: &mut [u8])
    requires { length table.old ≡ 256 }
    ensures { table.new ≡ tabulate 256 inverse }
{
    for t in 0..256 {
        table[t] = gf256_rows::inverse(t as u8);
    }
}

// (w - v) / (y - a) in place of each w.
pub fn slopes(inverses: &[u8], a: u8, v: u8, ys: &[u8], ws: &mut [u8])
    requires { (inverses.now ≡ tabulate 256 inverse) × (length ys.now ≡ length ws.old) }
    ensures { ws.new ≡ slopes a v ys.now ws.old }
{
    for j in 0..ws.len() {
        let w = ws[j];
        let y = ys[j];
        let d = gf256_mul::add(y, a);
        let n = inverses[d as usize];
        let u = gf256_mul::add(w, v);
        ws[j] = product(u, n);
    }
}

// The coefficients of the polynomial with the values vs at xs, in place of the values.
pub fn interpolate(inverses: &[u8], xs: &[u8], vs: &mut [u8])
    requires { (inverses.now ≡ tabulate 256 inverse) × (length xs.now ≡ length vs.old) }
    ensures { vs.new ≡ interpolate xs.now vs.old }
{
    if vs.len() > 0 {
        let a = xs[0];
        let v = vs[0];
        slopes(inverses, a, v, &xs[1..], &mut vs[1..]);
        interpolate(inverses, &xs[1..], &mut vs[1..]);
        step(a, vs);
    }
}
