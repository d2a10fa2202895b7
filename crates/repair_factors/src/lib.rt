// What helpers multiply their bytes by in a repair: Lagrange's factors of each helper for the fresh board that it serves, made once.
// Assumes nothing.

#![tactic(auto)]

ghost use Rattle.std.specs.Prelude.{◌≡◌, true, ◌*◌, ◌/◌, ◌<◌, ◌≤◌, eqb, length, get_or};
ghost use Rattle.lists.specs.Tests.{pick, below};
ghost use Rattle.lists.specs.Lists.{tabulate, join, piece};
ghost use Rattle.gf256.specs.Field.{inverse};
ghost use Rattle.repair_factors.specs.Steps.{column_row, pair_row_at};

// Column i of c rows, where board j is board h; else out stays.
fn put_row(c: usize, h: usize, j: usize, i: usize, rows: &[u8], out: &mut [u8])
    requires { (c ≤ 32) × (i < 32) × (c * 32 ≤ length rows.now) × (length out.old ≡ 32) }
    ensures { out.new ≡ pick (eqb j h) (column_row c i rows.now) out.old }
{
    if j == h {
        lagrange_factors::column(rows, c, i, out);
    }
}

// The factors of board h, wherever it is a helper, from Lagrange's rows of itself and its neighbours: d helpers for each fresh board.
fn put_rows(
    d: usize,
    c: usize,
    h: usize,
    fresh: &[usize],
    helpers: &[usize],
    rows: &[u8],
    out: &mut [u8],
)
    requires { (1 ≤ d) × (c ≤ 32) × (c * 32 ≤ length rows.now) × (below 32 fresh.now ≡ true) × (length helpers.now ≡ length fresh.now * d) × (length helpers.now ≤ 256) × (length out.old ≡ length helpers.now * 32) }
    ensures { out.new ≡ join (length helpers.now) (λ p. pick (eqb (get_or helpers.now p 0) h) (column_row c (get_or fresh.now (p / d) 0) rows.now) (piece 32 p out.old)) }
{
    for p in 0..helpers.len() {
        let at = p * 32;
        let end = at + 32;
        put_row(c, h, helpers[p], fresh[p / d], rows, &mut out[at..end]);
    }
}

// The factors of each helper for its fresh board, by the c bytes that it keeps of f or of g, a row each. near and rows are for work.
fn pair_rows(
    n: usize,
    d: usize,
    c: usize,
    points: &[u8],
    fresh: &[usize],
    helpers: &[usize],
    inverses: &[u8],
    near: &mut [usize],
    rows: &mut [u8],
    out: &mut [u8],
)
    requires { (inverses.now ≡ tabulate 256 inverse) × (length points.now ≡ 32) × (n ≤ 32) × (1 ≤ d) × (c ≤ 32) × (below n fresh.now ≡ true) × (below n helpers.now ≡ true) × (length helpers.now ≡ length fresh.now * d) × (length helpers.now ≤ 256) × (length near.old ≡ c) × (length rows.old ≡ c * 32) × (length out.old ≡ length helpers.now * 32) }
    ensures { out.new ≡ join (length helpers.now) (pair_row_at points.now n d c fresh.now helpers.now) }
{
    for h in 0..n {
        lagrange_factors::boards_from(n, h, near);
        lagrange_rows::lagrange_rows(points, near, inverses, rows);
        put_rows(d, c, h, fresh, helpers, rows, out);
    }
}

// The same, with space of its own.
pub fn all_pair_rows(
    n: usize,
    d: usize,
    c: usize,
    points: &[u8],
    fresh: &[usize],
    helpers: &[usize],
    inverses: &[u8],
    out: &mut [u8],
)
    requires { (inverses.now ≡ tabulate 256 inverse) × (length points.now ≡ 32) × (n ≤ 32) × (1 ≤ d) × (c ≤ 32) × (below n fresh.now ≡ true) × (below n helpers.now ≡ true) × (length helpers.now ≡ length fresh.now * d) × (length helpers.now ≤ 256) × (length out.old ≡ length helpers.now * 32) }
    ensures { out.new ≡ join (length helpers.now) (pair_row_at points.now n d c fresh.now helpers.now) }
{
    let m = c * 32;
    let mut near = [0usize; 32];
    let mut rows = [0u8; 1024];
    pair_rows(
        n,
        d,
        c,
        points,
        fresh,
        helpers,
        inverses,
        &mut near[0..c],
        &mut rows[0..m],
        out,
    );
}
