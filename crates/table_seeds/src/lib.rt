// A power, a seed of the tables of a read, and the factors for one board.
// Assumes nothing.

#![tactic(auto)]

ghost use Rattle.std.specs.Prelude.{◌≡◌, ◌+◌, ◌-◌, ◌*◌, ◌%◌, ◌<◌, ◌≤◌, eqb, ltb, length};
ghost use Rattle.lists.specs.Tests.{pick};
ghost use Rattle.lists.specs.Lists.{tabulate, join, fit};
ghost use Rattle.polynomial.specs.Polynomial.{power};
ghost use Rattle.decode_laws.specs.Steps.{cell};

use sizes::Sizes;

// x to the power e.
pub fn power(x: u8, e: usize) -> u8
    ensures { result ≡ power x e }
{
    let mut acc: u8 = 1;
    for _ in 0..e {
        acc = interpolation::product(x, acc);
    }
    acc
}

// Value t of those through which row s goes, over m points of which x is the t-th.
pub fn seed(m: usize, s: usize, t: usize, x: u8) -> u8
    ensures { result ≡ pick (ltb s m) (pick (eqb t s) 1 0) (power x s) }
{
    if s < m {
        if t == s {
            return 1;
        }
        return 0;
    }
    power(x, s)
}

// From Lagrange's rows of board b and its neighbours, the factors for each board from the c-th after it on.
pub fn board_factors(sizes: Sizes, c: usize, b: usize, rows: &[u8], out: &mut [u8])
    requires { (sizes.n ≤ 32) × (c ≤ sizes.n) × (b < sizes.n) × (c * 32 ≤ length rows.now) × (length out.old ≡ (sizes.n - c) * 32) }
    ensures { out.new ≡ join (sizes.n - c) (λ o. fit 32 (tabulate c (λ t. cell rows.now t ((b + (c + o)) % sizes.n)))) }
{
    let n = sizes.n;
    for o in 0..n - c {
        let at = o * 32;
        let end = at + 32;
        let j = (b + (c + o)) % n;
        lagrange_factors::column(rows, c, j, &mut out[at..end]);
    }
}
