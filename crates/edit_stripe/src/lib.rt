// One stripe of an edit: by what it changes, and what boards keep of that, added to what they hold. Most bytes of a change are 00, and a byte 00 adds
// nothing: its values are sums of the rows of powers that it has other bytes for, without tables of their multiples.
// Assumes nothing.

#![tactic(auto)]

ghost use Rattle.std.specs.Prelude.{◌≡◌, true, ◌++◌, ℕ, ◌+◌, ◌*◌, ◌<◌, ◌≤◌, length, take, drop};
ghost use Rattle.lists.specs.Tests.{below, different};
ghost use Rattle.lists.specs.Lists.{join, piece};
ghost use Rattle.sizes.specs.Sizing.{legal, α, B};
ghost use Rattle.polynomial.specs.Polynomial.{evals};
ghost use Rattle.mbcr.specs.Share.{kept};
ghost use Rattle.row_values.specs.Steps.{row_sums};
ghost use Rattle.decode_laws.specs.Steps.{Placed};
ghost use Rattle.decode_stripe.specs.Steps.{Asked};
ghost use Rattle.decode_setup.specs.Steps.{Made};
ghost use Rattle.edit_put.specs.Steps.{kept_by, added};
ghost use Rattle.edit_stripe.specs.Steps.{laid_rows, changed_stripe};

use sizes::Sizes;

// The sum of each row of 32 bytes times its value.
fn sums(values: &[u8], rows: &[u8], out: &mut [u8])
    requires { (length values.now * 32 ≤ length rows.now) × (length values.now ≤ 32) × (length out.old ≤ 32) }
    ensures { out.new ≡ row_sums (length out.old) values.now rows.now }
{
    row_dots::clear(out);
    for t in 0..values.len() {
        let at = t * 32;
        let end = at + 32;
        edit_powers::add_times(values[t], &rows[at..end], out);
    }
}

// Of polynomials whose coefficients are rows of 32 bytes: their values at the points, of which powers has the powers.
fn values_in(powers: &[u8], count: usize, rows: &[u8], out: &mut [u8])
    requires { (length powers.now ≡ 1024) × (count ≤ 32) × (length rows.now ≡ 1024) × (length out.old ≡ 1024) }
    ensures { out.new ≡ join count (λ t. row_sums 32 (piece 32 t rows.now) powers.now) ++ drop (count * 32) out.old }
{
    for t in 0..count {
        let at = t * 32;
        let end = at + 32;
        sums(&rows[at..end], powers, &mut out[at..end]);
    }
}

// Of polynomials whose coefficients are rows of 32 bytes: their values at 32 points, to the beginning of out.
fn values(points: &[u8], count: usize, rows: &[u8], out: &mut [u8])
    requires { (length points.now ≡ 32) × (count ≤ 32) × (length rows.now ≡ 1024) × (length out.old ≡ 1024) }
    ensures { out.new ≡ join count (λ t. evals (piece 32 t rows.now) points.now) ++ drop (count * 32) out.old }
{
    let mut powers = [0u8; 1024];
    edit_powers::fill_rows(points, &mut powers);
    values_in(&powers, count, rows, out);
}

// The rows of a stripe's grid, to the beginning of out.
fn lay_rows(sizes: Sizes, u: &[u8], out: &mut [u8])
    requires { (legal sizes ≡ true) × (length u.now ≡ B sizes) × (length out.old ≡ 1024) }
    ensures { out.new ≡ laid_rows sizes u.now ++ drop (sizes.d * 32) out.old }
{
    for i in 0..sizes.d {
        let at = i * 32;
        let end = at + 32;
        edit_grid::lay_row(sizes, u, i, &mut out[at..end]);
    }
}

// In place of a stripe's coefficients at the beginning of u the rows of values by board, of which each board keeps what it keeps of the stripe.
fn keep_values(sizes: Sizes, points: &[u8], u: &mut [u8])
    requires { (legal sizes ≡ true) × (length points.now ≡ 32) × (length u.old ≡ 1024) }
    ensures { (i : ℕ) → i < sizes.n → kept_by sizes u.new i ≡ kept sizes points.now (take (B sizes) u.old) i }
{
    let b = sizes.stripe_len();
    let m = sizes.n * 32;
    let mut rows = [0u8; 1024];
    lay_rows(sizes, &u[0..b], &mut rows);
    values(points, sizes.d, &rows, u);
    decode_tables::top_rows(0, sizes.d, sizes.n, u, &mut rows[0..m]);
    values(points, sizes.n, &rows, u);
}

// What these boards keep of the stripe whose coefficients stand at the beginning of u, added to what they hold of stripe s; a board's part has `part`
// bytes. u is for work besides.
pub fn add_stripe(
    sizes: Sizes,
    points: &[u8],
    part: usize,
    s: usize,
    u: &mut [u8],
    boards: &[usize],
    area: &mut [u8],
)
    requires { (legal sizes ≡ true) × (length points.now ≡ 32) × (part ≤ 253952) × (s * α sizes + α sizes ≤ part) × (length u.old ≡ 1024) × (below sizes.n boards.now ≡ true) × (different boards.now ≡ true) × (length area.old ≡ sizes.n * part) }
    ensures { area.new ≡ added (α sizes) part (s * α sizes) (kept sizes points.now (take (B sizes) u.old)) boards.now area.old }
{
    let at = s * (2 * sizes.d + sizes.r - 1);
    keep_values(sizes, points, u);
    edit_put::add_boards(sizes, part, at, u, boards, area);
}

// By what stripe s of the file that k boards hold changes, where bytes are put from an offset on.
pub fn changed_stripe(
    sizes: Sizes,
    points: &[u8],
    boards: &[usize],
    starts: &[usize],
    area: &[u8],
    s: usize,
    tables: &[u8],
    offset: usize,
    bytes: &[u8],
    u: &mut [u8],
)
    requires { Asked sizes points.now boards.now × (length starts.now ≡ sizes.k) × Placed sizes starts.now area.now (s + 1) × (s + 1 ≤ 4096) × Made sizes points.now boards.now tables.now × (length u.old ≡ B sizes) }
    ensures { u.new ≡ changed_stripe sizes points.now boards.now starts.now area.now offset bytes.now s }
{
    let from = s * u.len();
    decode_stripes::stripes(sizes, points, boards, starts, area, s, 1, tables, u);
    edit_rows::change(from, offset, bytes, u);
}
