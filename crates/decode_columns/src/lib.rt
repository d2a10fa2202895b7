// A stripe from the coefficients of f and g of k boards, by sums of rows: its rows from k on, then the columns of those before.
// Assumes nothing.

#![tactic(auto)]

ghost use Rattle.std.specs.Prelude.{◌≡◌, true, List, ℕ, ◌+◌, ◌-◌, ◌*◌, ◌≤◌, length, take};
ghost use Rattle.sizes.specs.Sizing.{legal, B};
ghost use Rattle.decode_laws.specs.Steps.{stripe_by};
ghost use Rattle.decode_rows.specs.Steps.{TabledRows};

use sizes::Sizes;

// The stripe from the coefficients: of f in the first k rows of rows, of g in tp. columns is for work.
pub fn stripe_of(
    sizes: Sizes,
    et: &[u8],
    tp: &[u8],
    rows: &mut [u8],
    columns: &mut [u8],
    u: &mut [u8],
)
    requires { (legal sizes ≡ true) × (length et.now ≡ sizes.d * 512) × (length tp.now ≡ (sizes.d - sizes.k) * sizes.k) × (length rows.old ≡ sizes.d * 32) × (length columns.old ≡ (sizes.d + sizes.r) * 32) × (length u.old ≡ B sizes) }
    ensures { (e : List ℕ) → sizes.d * 32 ≤ length e → TabledRows sizes.d e et.now → u.new ≡ stripe_by sizes.k sizes.d (sizes.d + sizes.r) e (take (sizes.k * 32) rows.old) tp.now }
{
    let k = sizes.k;
    let d = sizes.d;
    let w = d + sizes.r;
    let from = k * 32;
    let to = d * 32;
    let a = k * k;
    let b = a + k * (w - k);
    let end = u.len();
    decode_rows::by_rows(d - k, k, tp, et, &mut rows[from..to]);
    decode_rows::by_columns(w, 0, d, rows, et, columns);
    decode_rows::turned(k, 0, k, columns, &mut u[0..a]);
    decode_rows::turned(k, k, w - k, columns, &mut u[a..b]);
    decode_rows::parts(d - k, k, &rows[from..to], &mut u[b..end]);
}
