// What a read makes once, of sizes, points and boards alone: rows of coefficients, the tables of their multiples, and Lagrange's factors.
// specs/Steps.antt of the crate decode_laws says what each function works out.
// Assumes nothing.

#![tactic(auto)]

ghost use Rattle.std.specs.Prelude.{◌≡◌, true, ◌+◌, ◌-◌, ◌*◌, ◌<◌, ◌≤◌, length};
ghost use Rattle.lists.specs.Tests.{below};
ghost use Rattle.lists.specs.Lists.{tabulate, join, piece, fit};
ghost use Rattle.gf256.specs.Field.{inverse};
ghost use Rattle.polynomial.specs.Polynomial.{interpolate};
ghost use Rattle.row_sums.specs.Steps.{multiples};
ghost use Rattle.decode_laws.specs.Steps.{cell, seeds, seed_rows, factors_of, factor_rows};

use sizes::Sizes;

// The values through which row s goes.
fn fill_seeds(xs: &[u8], s: usize, out: &mut [u8])
    requires { length out.old ≡ length xs.now }
    ensures { out.new ≡ seeds xs.now s }
{
    let m = xs.len();
    for t in 0..m {
        out[t] = table_seeds::seed(m, s, t, xs[t]);
    }
}

// The coefficients of the polynomial through the values in place, in place of them.
fn seed_row(inverses: &[u8], xs: &[u8], s: usize, row: &mut [u8])
    requires { (inverses.now ≡ tabulate 256 inverse) × (length xs.now ≤ 32) × (length row.old ≡ 32) }
    ensures { row.new ≡ fit 32 (interpolate xs.now (seeds xs.now s)) }
{
    let m = xs.len();
    row_dots::clear(row);
    fill_seeds(xs, s, &mut row[0..m]);
    interpolation::interpolate(inverses, xs, &mut row[0..m]);
}

// The rows of coefficients: d of them.
pub fn seed_rows(inverses: &[u8], xs: &[u8], d: usize, rows: &mut [u8])
    requires { (inverses.now ≡ tabulate 256 inverse) × (length xs.now ≤ 32) × (d ≤ 32) × (length rows.old ≡ d * 32) }
    ensures { rows.new ≡ seed_rows d xs.now }
{
    for s in 0..d {
        let at = s * 32;
        let end = at + 32;
        seed_row(inverses, xs, s, &mut rows[at..end]);
    }
}

// The multiples of rows.
pub fn fill_tables(count: usize, rows: &[u8], tables: &mut [u8])
    requires { (count ≤ 32) × (count * 32 ≤ length rows.now) × (length tables.old ≡ count * 512) }
    ensures { tables.new ≡ join count (λ s. multiples (piece 32 s rows.now)) }
{
    for s in 0..count {
        let from = s * 32;
        let to = from + 32;
        let at = s * 512;
        let end = at + 512;
        multiples::fill_multiples(&rows[from..to], &mut tables[at..end]);
    }
}

// Byte k, k + 1, .. of m rows, a row each, and 00 behind.
pub fn top_rows(k: usize, m: usize, count: usize, rows: &[u8], out: &mut [u8])
    requires { (k + count ≤ 32) × (m ≤ 32) × (m * 32 ≤ length rows.now) × (length out.old ≡ count * 32) }
    ensures { out.new ≡ join count (λ i. fit 32 (tabulate m (λ s. cell rows.now s (k + i)))) }
{
    for i in 0..count {
        let at = i * 32;
        let end = at + 32;
        lagrange_factors::column(rows, m, k + i, &mut out[at..end]);
    }
}

// The factors of board b. near and rows are for work.
fn factors_in(
    sizes: Sizes,
    points: &[u8],
    inverses: &[u8],
    c: usize,
    b: usize,
    near: &mut [usize],
    rows: &mut [u8],
    out: &mut [u8],
)
    requires { (inverses.now ≡ tabulate 256 inverse) × (length points.now ≡ 32) × (sizes.n ≤ 32) × (c ≤ sizes.n) × (b < sizes.n) × (length near.old ≡ c) × (length rows.old ≡ c * 32) × (length out.old ≡ (sizes.n - c) * 32) }
    ensures { out.new ≡ factors_of sizes points.now c b }
{
    lagrange_factors::boards_from(sizes.n, b, near);
    lagrange_rows::lagrange_rows(points, near, inverses, rows);
    table_seeds::board_factors(sizes, c, b, rows, out);
}

// The factors of each of some boards. near and rows are for work.
fn factor_rows_in(
    sizes: Sizes,
    points: &[u8],
    inverses: &[u8],
    c: usize,
    boards: &[usize],
    near: &mut [usize],
    rows: &mut [u8],
    out: &mut [u8],
)
    requires { (inverses.now ≡ tabulate 256 inverse) × (length points.now ≡ 32) × (sizes.n ≤ 32) × (c ≤ sizes.n) × (length boards.now ≤ 32) × (below sizes.n boards.now ≡ true) × (length near.old ≡ c) × (length rows.old ≡ c * 32) × (length out.old ≡ length boards.now * ((sizes.n - c) * 32)) }
    ensures { out.new ≡ factor_rows sizes points.now c boards.now }
{
    let m = (sizes.n - c) * 32;
    for t in 0..boards.len() {
        let at = t * m;
        let end = at + m;
        let b = boards[t];
        factors_in(sizes, points, inverses, c, b, near, rows, &mut out[at..end]);
    }
}

// The factors of each of some boards.
pub fn factor_rows(
    sizes: Sizes,
    points: &[u8],
    inverses: &[u8],
    c: usize,
    boards: &[usize],
    out: &mut [u8],
)
    requires { (inverses.now ≡ tabulate 256 inverse) × (length points.now ≡ 32) × (sizes.n ≤ 32) × (c ≤ sizes.n) × (length boards.now ≤ 32) × (below sizes.n boards.now ≡ true) × (length out.old ≡ length boards.now * ((sizes.n - c) * 32)) }
    ensures { out.new ≡ factor_rows sizes points.now c boards.now }
{
    let q = c * 32;
    let mut near = [0usize; 32];
    let mut rows = [0u8; 1024];
    factor_rows_in(
        sizes,
        points,
        inverses,
        c,
        boards,
        &mut near[0..c],
        &mut rows[0..q],
        out,
    );
}
