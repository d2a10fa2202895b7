// The values of a stripe's polynomial at all points: its rows, then its columns, each a sum of rows of powers. The bytes of the stripe
// are read where they lie.
// Assumes nothing.

#![tactic(auto)]

ghost use Rattle.std.specs.Prelude.{◌≡◌, List, ◌++◌, true, ℕ, ◌+◌, ◌-◌, ◌*◌, ◌<◌, ◌≤◌, length, get_or, drop};
ghost use Rattle.lists.specs.Lists.{tabulate, join, piece};
ghost use Rattle.sizes.specs.Sizing.{legal, B};
ghost use Rattle.polynomial.specs.Polynomial.{evals};
ghost use Rattle.row_sums.specs.Steps.{row_bytes, Tabled};
ghost use Rattle.powers.specs.Steps.{power_rows};
ghost use Rattle.encode_values.specs.Steps.{row_values};

use row_sums::Row;
use sizes::Sizes;

// The values of row i of the first k: its coefficients are k bytes of a, then w - k bytes of b.
fn upper_row(tables: &[u8], k: usize, w: usize, u: &[u8], i: usize) -> Row
    requires { (i < k) × (k ≤ w) × (w ≤ 32) × (w * 512 ≤ length tables.now) × (k * k + k * (w - k) ≤ length u.now) }
    ensures { (points : List ℕ) → length points ≡ 32 → Tabled (power_rows points w) tables.now → row_bytes result ≡ evals (piece k i u.now ++ piece (w - k) i (drop (k * k) u.now)) points }
{
    let m = w - k;
    let from = i * k;
    let to = from + k;
    let more = k * k + i * m;
    let end = more + m;
    let mid = k * 512;
    let a = column_sums::row_sum(tables, &u[from..to]);
    let b = column_sums::row_sum(&tables[mid..], &u[more..end]);
    row_sums::plus(a, b)
}

// The values of the first k rows, to the beginning of out.
fn upper_values(tables: &[u8], k: usize, w: usize, u: &[u8], out: &mut [u8])
    requires { (k ≤ w) × (w ≤ 32) × (w * 512 ≤ length tables.now) × (k * k + k * (w - k) ≤ length u.now) × (k * 32 ≤ length out.old) }
    ensures { (points : List ℕ) → length points ≡ 32 → Tabled (power_rows points w) tables.now → out.new ≡ join k (λ i. evals (piece k i u.now ++ piece (w - k) i (drop (k * k) u.now)) points) ++ drop (k * 32) out.old }
{
    for i in 0..k {
        let at = i * 32;
        let end = at + 32;
        row_sums::put_row(upper_row(tables, k, w, u, i), &mut out[at..end]);
    }
}

// The values of m rows of k coefficients each, one after another in u, to the beginning of out.
fn lower_values(tables: &[u8], k: usize, m: usize, u: &[u8], out: &mut [u8])
    requires { (k ≤ 32) × (m ≤ 32) × (k * 512 ≤ length tables.now) × (m * k ≤ length u.now) × (m * 32 ≤ length out.old) }
    ensures { (points : List ℕ) → length points ≡ 32 → Tabled (power_rows points k) tables.now → out.new ≡ join m (λ i. evals (piece k i u.now) points) ++ drop (m * 32) out.old }
{
    for i in 0..m {
        let from = i * k;
        let to = from + k;
        let at = i * 32;
        let end = at + 32;
        row_sums::put_row(
            column_sums::row_sum(tables, &u[from..to]),
            &mut out[at..end],
        );
    }
}

// The values of all rows of a stripe's polynomial at all points, to the beginning of rows.
pub fn row_values(sizes: Sizes, tables: &[u8], u: &[u8], rows: &mut [u8])
    requires { (legal sizes ≡ true) × (length tables.now ≡ 16384) × (length u.now ≡ B sizes) × (length rows.old ≡ 992) }
    ensures { (points : List ℕ) → length points ≡ 32 → Tabled (power_rows points (sizes.d + sizes.r)) tables.now → rows.new ≡ row_values sizes points u.now ++ drop (sizes.d * 32) rows.old }
{
    let k = sizes.k;
    let m = sizes.d - k;
    let w = sizes.d + sizes.r;
    let low = k * k + k * (w - k);
    let at = k * 32;
    upper_values(tables, k, w, u, rows);
    lower_values(tables, k, m, &u[low..], &mut rows[at..]);
}

// Of the polynomials in X whose coefficients are the bytes l of d rows, for each l below n: their values at all points, to the beginning of values.
pub fn column_values(tables: &[u8], d: usize, n: usize, rows: &[u8], values: &mut [u8])
    requires { (d ≤ 32) × (n ≤ 32) × (d * 512 ≤ length tables.now) × (d * 32 ≤ length rows.now) × (n * 32 ≤ length values.old) }
    ensures { (points : List ℕ) → length points ≡ 32 → Tabled (power_rows points d) tables.now → values.new ≡ join n (λ l. evals (tabulate d (λ i. get_or rows.now (i * 32 + l) 0)) points) ++ drop (n * 32) values.old }
{
    for l in 0..n {
        let at = l * 32;
        let end = at + 32;
        row_sums::put_row(
            column_sums::column_sum(tables, rows, l, d),
            &mut values[at..end],
        );
    }
}
