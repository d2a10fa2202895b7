// Rebuilding, the last step of document 01: one stripe that a fresh board finishes, by Lagrange's rows.
// Assumes nothing.

#![tactic(auto)]

ghost use Rattle.std.specs.Prelude.{◌≡◌, true, [], ◌∷◌, ◌++◌, ◌+◌, ◌-◌, ◌*◌, ◌<◌, ◌≤◌, length, take};
ghost use Rattle.lists.specs.Tests.{below};
ghost use Rattle.lists.specs.Lists.{tabulate};
ghost use Rattle.gf256.specs.Field.{inverse};
ghost use Rattle.stripe_finish.specs.Steps.{finished_by, board_rows};

// The first boards of a list, as many as out has.
pub fn copy_boards(a: &[usize], out: &mut [usize])
    requires { length out.old ≤ length a.now }
    ensures { out.new ≡ take (length out.old) a.now }
{
    let n = out.len();
    out.copy_from_slice(&a[0..n]);
}

// Helpers, partners and board i, one after another.
pub fn all_boards(helpers: &[usize], partners: &[usize], i: usize, out: &mut [usize])
    requires { length out.old ≡ length helpers.now + length partners.now + 1 }
    ensures { out.new ≡ helpers.now ++ partners.now ++ (i ∷ []) }
{
    let d = helpers.len();
    let last = d + partners.len();
    copy_boards(helpers, &mut out[0..d]);
    copy_boards(partners, &mut out[d..last]);
    out[last] = i;
}

// The bytes of a stripe that board i writes: g are the values of its g at all points, and `got` has in all places but the last the second bytes
// of its helpers and those of its partners. rows are Lagrange's rows of all of these and of itself. f is for work.
pub fn finish(
    n: usize,
    i: usize,
    rows: &[u8],
    g: &[u8],
    got: &mut [u8],
    f: &mut [u8],
    out: &mut [u8],
)
    requires { (i < n) × (n ≤ 32) × (1 ≤ length got.old) × (length got.old ≤ 32) × (length got.old * 32 ≤ length rows.now) × (n ≤ length g.now) × (n ≤ length f.old) × (length f.old ≤ 32) × (length got.old ≤ length out.old) }
    ensures { out.new ≡ finished_by n i (length f.old) (length out.old - length got.old) rows.now g.now (take (length got.old - 1) got.old) }
{
    let w = got.len();
    let last = w - 1;
    got[last] = g[i];
    row_values::row_sums(got, rows, f);
    row_values::emit_turned(f, n, i, &mut out[0..w]);
    let next = lagrange_factors::next(i, n);
    row_values::emit_turned(g, n, next, &mut out[w..]);
}

// Lagrange's rows of a board that finishes: of its helpers, and of helpers, partners and itself. `all` is for work.
pub fn board_rows(
    points: &[u8],
    helpers: &[usize],
    partners: &[usize],
    i: usize,
    inverses: &[u8],
    all: &mut [usize],
    rows: &mut [u8],
)
    requires { (inverses.now ≡ tabulate 256 inverse) × (length points.now ≡ 32) × (below 32 helpers.now ≡ true) × (below 32 partners.now ≡ true) × (i < 32) × (length all.old ≡ length helpers.now + length partners.now + 1) × (length all.old ≤ 32) × (length rows.old ≡ (length helpers.now + length all.old) * 32) }
    ensures { rows.new ≡ board_rows points.now helpers.now partners.now i }
{
    let m = helpers.len() * 32;
    all_boards(helpers, partners, i, all);
    lagrange_rows::lagrange_rows(points, helpers, inverses, &mut rows[0..m]);
    lagrange_rows::lagrange_rows(points, all, inverses, &mut rows[m..]);
}
