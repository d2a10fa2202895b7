// The tables that a read makes once, of sizes, points and boards alone, each put at a place: rows of coefficients with their multiples,
// and Lagrange's factors.
// Assumes nothing.

#![tactic(auto)]

ghost use Rattle.std.specs.Prelude.{◌≡◌, true, ◌+◌, ◌-◌, ◌*◌, ◌≤◌, length, get_or};
ghost use Rattle.lists.specs.Tests.{below};
ghost use Rattle.lists.specs.Lists.{tabulate, put};
ghost use Rattle.gf256.specs.Field.{inverse};
ghost use Rattle.sizes.specs.Sizing.{legal};
ghost use Rattle.mbcr.specs.Share.{points as points_of, neighbours};
ghost use Rattle.decode_laws.specs.Steps.{seed_rows, unit_rows, top_rows, factor_rows};
ghost use Rattle.setup_rows.specs.Steps.{tables_of};

use sizes::Sizes;

// The rows of coefficients of some boards' points: d of them.
fn rows_at(points: &[u8], inverses: &[u8], boards: &[usize], d: usize, rows: &mut [u8])
    requires { (inverses.now ≡ tabulate 256 inverse) × (length points.now ≡ 32) × (below 32 boards.now ≡ true) × (length boards.now ≤ 32) × (d ≤ 32) × (length rows.old ≡ d * 32) }
    ensures { rows.new ≡ seed_rows d (points_of points.now boards.now) }
{
    let m = boards.len();
    let mut xs = [0u8; 32];
    lagrange_rows::points_of(points, boards, &mut xs[0..m]);
    decode_tables::seed_rows(inverses, &xs[0..m], d, rows);
}

// The tables of their multiples.
pub fn row_tables(
    points: &[u8],
    inverses: &[u8],
    boards: &[usize],
    d: usize,
    at: usize,
    out: &mut [u8],
)
    requires { (inverses.now ≡ tabulate 256 inverse) × (length points.now ≡ 32) × (below 32 boards.now ≡ true) × (length boards.now ≤ 32) × (d ≤ 32) × (at + d * 512 ≤ length out.old) }
    ensures { out.new ≡ put out.old at (tables_of d (seed_rows d (points_of points.now boards.now))) }
{
    let q = d * 32;
    let end = at + d * 512;
    let mut rows = [0u8; 1024];
    rows_at(points, inverses, boards, d, &mut rows[0..q]);
    decode_tables::fill_tables(d, &rows[0..q], &mut out[at..end]);
}

// For each power from the k-th on, its coefficients.
pub fn top_table(
    points: &[u8],
    inverses: &[u8],
    boards: &[usize],
    k: usize,
    at: usize,
    out: &mut [u8],
)
    requires { (inverses.now ≡ tabulate 256 inverse) × (length points.now ≡ 32) × (below 32 boards.now ≡ true) × (length boards.now ≤ 32) × (k ≤ length boards.now) × (at + (length boards.now - k) * 32 ≤ length out.old) }
    ensures { out.new ≡ put out.old at (top_rows k (points_of points.now boards.now)) }
{
    let d = boards.len();
    let q = d * 32;
    let m = d - k;
    let end = at + m * 32;
    let mut rows = [0u8; 1024];
    rows_at(points, inverses, boards, d, &mut rows[0..q]);
    decode_tables::top_rows(k, d, m, &rows[0..q], &mut out[at..end]);
}

// The tables for the d + r boards from the first board read on.
pub fn unit_tables(
    sizes: Sizes,
    points: &[u8],
    inverses: &[u8],
    boards: &[usize],
    at: usize,
    out: &mut [u8],
)
    requires { (legal sizes ≡ true) × (length boards.now ≡ sizes.k) × (below sizes.n boards.now ≡ true) × (inverses.now ≡ tabulate 256 inverse) × (length points.now ≡ 32) × (at + (sizes.d + sizes.r) * 512 ≤ length out.old) }
    ensures { out.new ≡ put out.old at (tables_of (sizes.d + sizes.r) (unit_rows (points_of points.now (neighbours sizes (get_or boards.now 0 0) (sizes.d + sizes.r))))) }
{
    let w = sizes.d + sizes.r;
    let mut targets = [0usize; 32];
    lagrange_factors::boards_from(sizes.n, boards[0], &mut targets[0..w]);
    row_tables(points, inverses, &targets[0..w], w, at, out);
}

// The factors of each of some boards.
pub fn factors_at(
    sizes: Sizes,
    points: &[u8],
    inverses: &[u8],
    c: usize,
    boards: &[usize],
    at: usize,
    out: &mut [u8],
)
    requires { (inverses.now ≡ tabulate 256 inverse) × (length points.now ≡ 32) × (sizes.n ≤ 32) × (c ≤ sizes.n) × (length boards.now ≤ 32) × (below sizes.n boards.now ≡ true) × (at + length boards.now * ((sizes.n - c) * 32) ≤ length out.old) }
    ensures { out.new ≡ put out.old at (factor_rows sizes points.now c boards.now) }
{
    let end = at + boards.len() * ((sizes.n - c) * 32);
    decode_tables::factor_rows(sizes, points, inverses, c, boards, &mut out[at..end]);
}
