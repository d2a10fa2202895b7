// Rows of a stripe's grid, of 32 bytes each, with 00 behind.
// Assumes nothing.

#![tactic(auto)]

ghost use Rattle.std.specs.Prelude.{◌≡◌, true, [], ◌++◌, ◌+◌, ◌*◌, ◌<◌, ◌≤◌, length, get_or, drop};
ghost use Rattle.lists.specs.Lists.{piece, fit};
ghost use Rattle.sizes.specs.Sizing.{legal, B};
ghost use Rattle.mbcr.specs.Share.{grid};

use sizes::Sizes;

// Row i of the first k of a stripe's grid, and 00 behind: k bytes of a, then m bytes of b.
fn upper_row(k: usize, m: usize, u: &[u8], i: usize, out: &mut [u8])
    requires { (i < k) × (k + m ≤ 32) × (k * k + k * m ≤ length u.now) × (length out.old ≡ 32) }
    ensures { out.new ≡ fit 32 (piece k i u.now ++ piece m i (drop (k * k) u.now)) }
{
    let from = i * k;
    let to = from + k;
    let more = k * k + i * m;
    let end = more + m;
    row_dots::copy(&u[from..to], &mut out[0..k]);
    kept_rows::padded(&u[more..end], &mut out[k..32]);
}

// Row i of those behind them, which stand from `low` on, and 00 behind: k bytes of c.
fn lower_row(k: usize, m: usize, low: usize, u: &[u8], i: usize, out: &mut [u8])
    requires { (i < m) × (m ≤ 32) × (k ≤ 32) × (low ≤ 1024) × (low + m * k ≤ length u.now) × (length out.old ≡ 32) }
    ensures { out.new ≡ fit 32 (piece k i (drop low u.now)) }
{
    let from = low + i * k;
    let to = from + k;
    kept_rows::padded(&u[from..to], out);
}

// Row i of a stripe's grid, and 00 behind.
pub fn lay_row(sizes: Sizes, u: &[u8], i: usize, out: &mut [u8])
    requires { (legal sizes ≡ true) × (i < sizes.d) × (length u.now ≡ B sizes) × (length out.old ≡ 32) }
    ensures { out.new ≡ fit 32 (get_or (grid sizes u.now) i []) }
{
    let k = sizes.k;
    let m = sizes.d + sizes.r - k;
    if i < k {
        upper_row(k, m, u, i, out);
        return;
    }
    lower_row(k, sizes.d - k, k * k + k * m, u, i - k, out);
}
