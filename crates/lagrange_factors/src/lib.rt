// Lagrange's factors of some boards for one board's point: the value there is the sum of their values times these.
// Assumes nothing.

#![tactic(auto)]

ghost use Rattle.std.specs.Prelude.{◌≡◌, true, ◌+◌, ◌*◌, ◌%◌, ◌<◌, ◌≤◌, length, get_or};
ghost use Rattle.lists.specs.Tests.{below};
ghost use Rattle.lists.specs.Lists.{tabulate, fit};
ghost use Rattle.gf256.specs.Field.{inverse};
ghost use Rattle.lagrange_factors.specs.Steps.{factors_at};

// The board after b, modulo n.
pub fn next(b: usize, n: usize) -> usize
    requires { (b < n) × (n ≤ 32) }
    ensures { result ≡ (b + 1) % n }
{
    if b + 1 < n { b + 1 } else { 0 }
}

// The boards from b on, modulo n.
pub fn boards_from(n: usize, b: usize, out: &mut [usize])
    requires { (b < n) × (n ≤ 32) }
    ensures { out.new ≡ tabulate (length out.old) (λ t. (b + t) % n) }
{
    let mut a = b;
    for t in 0..out.len() {
        out[t] = a;
        a = next(a, n);
    }
}

// Byte i of each row, to the beginning of out, and 00 behind.
pub fn column(rows: &[u8], m: usize, i: usize, out: &mut [u8])
    requires { (i < 32) × (m ≤ 32) × (m * 32 ≤ length rows.now) × (m ≤ length out.old) }
    ensures { out.new ≡ fit (length out.old) (tabulate m (λ t. get_or rows.now (t * 32 + i) 0)) }
{
    row_dots::clear(out);
    for t in 0..m {
        out[t] = rows[t * 32 + i];
    }
}

// The factors of boards for the point of board i. rows is for work.
pub fn factors_in(
    points: &[u8],
    boards: &[usize],
    inverses: &[u8],
    i: usize,
    rows: &mut [u8],
    out: &mut [u8],
)
    requires { (inverses.now ≡ tabulate 256 inverse) × (length points.now ≡ 32) × (below 32 boards.now ≡ true) × (length boards.now ≤ length out.old) × (length out.old ≤ 32) × (i < 32) × (length rows.old ≡ length boards.now * 32) }
    ensures { out.new ≡ fit (length out.old) (factors_at points.now boards.now i) }
{
    lagrange_rows::lagrange_rows(points, boards, inverses, rows);
    column(rows, boards.len(), i, out);
}

// The factors of boards for the point of board i, and 00 behind.
pub fn factors(points: &[u8], boards: &[usize], inverses: &[u8], i: usize, out: &mut [u8])
    requires { (inverses.now ≡ tabulate 256 inverse) × (length points.now ≡ 32) × (below 32 boards.now ≡ true) × (length boards.now ≤ length out.old) × (length out.old ≤ 32) × (i < 32) }
    ensures { out.new ≡ fit (length out.old) (factors_at points.now boards.now i) }
{
    let m = boards.len() * 32;
    let mut rows = [0u8; 1024];
    factors_in(points, boards, inverses, i, &mut rows[0..m], out);
}

// The factors of the m boards from j on, modulo n, for the point of board i. near is for work.
fn factors_near(
    points: &[u8],
    n: usize,
    j: usize,
    m: usize,
    inverses: &[u8],
    i: usize,
    near: &mut [usize],
    out: &mut [u8],
)
    requires { (inverses.now ≡ tabulate 256 inverse) × (length points.now ≡ 32) × (j < n) × (n ≤ 32) × (m ≤ length out.old) × (length out.old ≤ 32) × (i < 32) × (length near.old ≡ m) }
    ensures { out.new ≡ fit (length out.old) (factors_at points.now (tabulate m (λ t. (j + t) % n)) i) }
{
    boards_from(n, j, near);
    factors(points, near, inverses, i, out);
}

// The factors of the m boards from j on, modulo n, for the point of board i, and 00 behind.
pub fn factors_from(
    points: &[u8],
    n: usize,
    j: usize,
    m: usize,
    inverses: &[u8],
    i: usize,
    out: &mut [u8],
)
    requires { (inverses.now ≡ tabulate 256 inverse) × (length points.now ≡ 32) × (j < n) × (n ≤ 32) × (m ≤ length out.old) × (length out.old ≤ 32) × (i < 32) }
    ensures { out.new ≡ fit (length out.old) (factors_at points.now (tabulate m (λ t. (j + t) % n)) i) }
{
    let mut near = [0usize; 32];
    factors_near(points, n, j, m, inverses, i, &mut near[0..m], out);
}
