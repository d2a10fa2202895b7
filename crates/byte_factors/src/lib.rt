// Lagrange's factors of some boards for any byte: the value there is the sum of their values times these. Request A.10 takes a value at a byte that is no
// board's point yet.
// Assumes nothing.

#![tactic(auto)]

ghost use Rattle.std.specs.Prelude.{◌≡◌, ◌+◌, ◌%◌, ◌<◌, ◌≤◌, length};
ghost use Rattle.lists.specs.Lists.{tabulate, fit};
ghost use Rattle.gf256.specs.Field.{inverse};
ghost use Rattle.lagrange.specs.Steps.{differences, others, weight};
ghost use Rattle.lagrange_factors.specs.Steps.{factors_for};

// The product of y - x over these points x.
fn product(xs: &[u8], y: u8) -> u8
    ensures { result ≡ differences xs.now y }
{
    let mut total: u8 = 1;
    for x in xs {
        let f = gf256_mul::multiples_of(total);
        total = gf256_mul::times(f, y ^ *x);
    }
    total
}

// The product of y - x over these points x but the t-th.
fn product_but(xs: &[u8], t: usize, y: u8) -> u8
    requires { (t < length xs.now) × (length xs.now ≤ 32) }
    ensures { result ≡ differences (others xs.now t) y }
{
    let m = xs.len();
    let after = t + 1;
    let a = product(&xs[0..t], y);
    let b = product(&xs[after..m], y);
    gf256_mul::times(gf256_mul::multiples_of(a), b)
}

// What the value at the t-th point adds at y.
fn factor(xs: &[u8], t: usize, inverses: &[u8], y: u8) -> u8
    requires { (inverses.now ≡ tabulate 256 inverse) × (t < length xs.now) × (length xs.now ≤ 32) }
    ensures { result ≡ weight xs.now t y }
{
    let x = xs[t];
    let own = product_but(xs, t, x);
    let here = product_but(xs, t, y);
    gf256_mul::times(gf256_mul::multiples_of(inverses[own as usize]), here)
}

// The factors of these points for the byte y, to the beginning of out, and 00 behind.
fn factors_of(xs: &[u8], inverses: &[u8], y: u8, out: &mut [u8])
    requires { (inverses.now ≡ tabulate 256 inverse) × (length xs.now ≤ length out.old) × (length out.old ≤ 32) }
    ensures { out.new ≡ fit (length out.old) (tabulate (length xs.now) (λ t. weight xs.now t y)) }
{
    row_dots::clear(out);
    for t in 0..xs.len() {
        out[t] = factor(xs, t, inverses, y);
    }
}

// The factors of the m boards from j on, modulo n, for the byte y. near and xs are for work.
fn factors_near(
    points: &[u8],
    n: usize,
    j: usize,
    m: usize,
    inverses: &[u8],
    y: u8,
    near: &mut [usize],
    xs: &mut [u8],
    out: &mut [u8],
)
    requires { (inverses.now ≡ tabulate 256 inverse) × (length points.now ≡ 32) × (j < n) × (n ≤ 32) × (m ≤ length out.old) × (length out.old ≤ 32) × (length near.old ≡ m) × (length xs.old ≡ m) }
    ensures { out.new ≡ fit (length out.old) (factors_for points.now (tabulate m (λ t. (j + t) % n)) y) }
{
    lagrange_factors::boards_from(n, j, near);
    lagrange_rows::points_of(points, near, xs);
    factors_of(xs, inverses, y, out);
}

// The factors of the m boards from j on, modulo n, for the byte y, to the beginning of out, and 00 behind.
pub fn byte_factors_from(
    points: &[u8],
    n: usize,
    j: usize,
    m: usize,
    inverses: &[u8],
    y: u8,
    out: &mut [u8],
)
    requires { (inverses.now ≡ tabulate 256 inverse) × (length points.now ≡ 32) × (j < n) × (n ≤ 32) × (m ≤ length out.old) × (length out.old ≤ 32) }
    ensures { out.new ≡ fit (length out.old) (factors_for points.now (tabulate m (λ t. (j + t) % n)) y) }
{
    let mut near = [0usize; 32];
    let mut xs = [0u8; 32];
    factors_near(
        points,
        n,
        j,
        m,
        inverses,
        y,
        &mut near[0..m],
        &mut xs[0..m],
        out,
    );
}
