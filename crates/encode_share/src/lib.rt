// The share of a file: of each stripe the values of its rows at all points, and out of them what the board keeps.
// Assumes nothing.

#![tactic(auto)]

ghost use Rattle.std.specs.Prelude.{◌≡◌, true, List, ◌++◌, ℕ, ◌+◌, ◌*◌, ◌<◌, ◌≤◌, length, drop};
ghost use Rattle.lists.specs.Lists.{join};
ghost use Rattle.sizes.specs.Sizing.{legal, α, B, stripes};
ghost use Rattle.mbcr.specs.Share.{stripe, point, kept, share};
ghost use Rattle.row_sums.specs.Steps.{Tabled};
ghost use Rattle.powers.specs.Steps.{power_rows};
ghost use Rattle.encode_values.specs.Steps.{row_values};

use sizes::Sizes;

// What board i keeps of a stripe, out of the rows of its values; x is the board's point.
pub fn share_rows(sizes: Sizes, tables: &[u8], x: u8, i: usize, rows: &[u8], out: &mut [u8])
    requires { (legal sizes ≡ true) × (i < sizes.n) × (length tables.now ≡ 16384) × (length rows.now ≡ 992) × (length out.old ≡ α sizes) }
    ensures { (points u rest : List ℕ) → length points ≡ 32 → length u ≡ B sizes → Tabled (power_rows points (sizes.d + sizes.r)) tables.now → x ≡ point points i → rows.now ≡ row_values sizes points u ++ rest → out.new ≡ kept sizes points u i }
{
    let d = sizes.d;
    let mut f = [0u8; 32];
    let mut g = [0u8; 32];
    horner::rows_at(rows, x, d, &mut f);
    row_sums::put_row(column_sums::column_sum(tables, rows, i, d), &mut g);
    kept_bytes::keep_rows(sizes, i, &f, &g, out);
}

// What board i keeps of the first stripes of a file, one after another; rows is for work.
fn share_stripes(
    sizes: Sizes,
    tables: &[u8],
    x: u8,
    i: usize,
    file: &[u8],
    count: usize,
    rows: &mut [u8],
    out: &mut [u8],
)
    requires { (legal sizes ≡ true) × (i < sizes.n) × (length tables.now ≡ 16384) × (count ≤ 4096) × (length rows.old ≡ 992) × (count * α sizes ≤ length out.old) }
    ensures { (points : List ℕ) → length points ≡ 32 → Tabled (power_rows points (sizes.d + sizes.r)) tables.now → x ≡ point points i → out.new ≡ join count (λ s. kept sizes points (stripe sizes file.now s) i) ++ drop (count * α sizes) out.old }
{
    let w = 2 * sizes.d + sizes.r - 1;
    for s in 0..count {
        let at = s * w;
        let end = at + w;
        stripe_rows::stripe_rows(sizes, tables, file, s, rows);
        share_rows(sizes, tables, x, i, rows, &mut out[at..end]);
    }
}

// The share of board i of a file of so many stripes, to the beginning of out.
pub fn share(sizes: Sizes, points: &[u8], i: usize, file: &[u8], count: usize, out: &mut [u8])
    requires { (legal sizes ≡ true) × (i < sizes.n) × (length points.now ≡ 32) × (count ≡ stripes sizes (length file.now)) × (count ≤ 4096) × (count * α sizes ≤ length out.old) }
    ensures { out.new ≡ share sizes points.now file.now i ++ drop (count * α sizes) out.old }
{
    let m = sizes.d + sizes.r;
    let x = points[i];
    let mut tables = [0u8; 16384];
    let mut rows = [0u8; 992];
    powers::fill_powers(points, m, &mut tables);
    share_stripes(sizes, &tables, x, i, file, count, &mut rows, out);
}
