// Whether two boards hold what they keep of one stripe that k others decode to (request A.11); and the order in which stripes are looked at.
// Assumes nothing.

#![tactic(auto)]

ghost use Rattle.std.specs.Prelude.{◌≡◌, true, false, List, ◌++◌, ℕ, ◌+◌, ◌*◌, ◌<◌, ◌≤◌, length, take, drop};
ghost use Rattle.lists.specs.Tests.{pick, same};
ghost use Rattle.sizes.specs.Sizing.{legal, α, B};
ghost use Rattle.mbcr.specs.Share.{kept};
ghost use Rattle.decode_laws.specs.Steps.{Placed};
ghost use Rattle.decode_stripe.specs.Steps.{Asked};
ghost use Rattle.decode_setup.specs.Steps.{Made};
ghost use Rattle.row_sums.specs.Steps.{Tabled};
ghost use Rattle.powers.specs.Steps.{power_rows};
ghost use Rattle.encode_values.specs.Steps.{row_values};
ghost use Rattle.stripe_holds.specs.Steps.{turned, holds_stripe};

use sizes::Sizes;

// Whether each of two boards holds its share, and the stripe that was looked at last: where neither holds, it is one in which the second failed. That
// is a hint for the next try, and nothing rests on it.
#[derive(Clone, Copy)]
pub struct Held {
    pub first: bool,
    pub second: bool,
    pub at: usize,
}

// Whether board i, of which it is asked only so far as it held all before, holds what it keeps of the stripe whose rows of values these are, at a
// place of the area; powers has the tables of the points' powers.
fn still_holds(
    before: bool,
    sizes: Sizes,
    points: &[u8],
    powers: &[u8],
    i: usize,
    at: usize,
    rows: &[u8],
    area: &[u8],
) -> bool
    requires { (legal sizes ≡ true) × (i < sizes.n) × (length points.now ≡ 32) × (length powers.now ≡ 16384) × (length rows.now ≡ 992) × (at + α sizes ≤ length area.now) }
    ensures { (u rest : List ℕ) → length u ≡ B sizes → Tabled (power_rows points.now (sizes.d + sizes.r)) powers.now → rows.now ≡ row_values sizes points.now u ++ rest → result ≡ pick before (same (take (α sizes) (drop at area.now)) (kept sizes points.now u i)) false }
{
    if !before {
        return false;
    }
    let w = 2 * sizes.d + sizes.r - 1;
    let end = at + w;
    let mut own = [0u8; 64];
    encode_share::share_rows(sizes, powers, points[i], i, rows, &mut own[0..w]);
    byte_tests::same_bytes(&area[at..end], &own[0..w])
}

// Whether boards p and q, of which each is asked only so far as it held all before, hold what they keep of stripe s that the k boards decode to; the k
// boards' parts start at starts, those of p and q at first and second. u is for the stripe's coefficients, rows for the values of their rows.
pub fn hold_stripe(
    held: Held,
    sizes: Sizes,
    points: &[u8],
    boards: &[usize],
    starts: &[usize],
    tables: &[u8],
    powers: &[u8],
    s: usize,
    p: usize,
    first: usize,
    q: usize,
    second: usize,
    area: &[u8],
    u: &mut [u8],
    rows: &mut [u8],
) -> Held
    requires { Asked sizes points.now boards.now × (length starts.now ≡ sizes.k) × Placed sizes starts.now area.now (s + 1) × (s < 4096) × Made sizes points.now boards.now tables.now × (length points.now ≡ 32) × (p < sizes.n) × (first + s * α sizes + α sizes ≤ length area.now) × (q < sizes.n) × (second + s * α sizes + α sizes ≤ length area.now) × (length area.now ≤ 8126464) × (length powers.now ≡ 16384) × Tabled (power_rows points.now (sizes.d + sizes.r)) powers.now × (length u.old ≡ B sizes) × (length rows.old ≡ 992) }
    ensures first_value { result.first ≡ pick held.first (holds_stripe sizes points.now boards.now starts.now area.now first p s) false }
    ensures second_value { result.second ≡ pick held.second (holds_stripe sizes points.now boards.now starts.now area.now second q s) false }
{
    let at = s * (2 * sizes.d + sizes.r - 1);
    decode_stripes::stripes(sizes, points, boards, starts, area, s, 1, tables, u);
    encode_values::row_values(sizes, powers, u, rows);
    let one = still_holds(held.first, sizes, points, powers, p, first + at, rows, area);
    let other = still_holds(
        held.second,
        sizes,
        points,
        powers,
        q,
        second + at,
        rows,
        area,
    );
    Held {
        first: one,
        second: other,
        at: s,
    }
}

// The stripe that is looked at after t others, from one on and around.
pub fn stripe_after(from: usize, t: usize, stripes: usize) -> usize
    requires { (t < stripes) × (stripes ≤ 4096) }
    ensures { result ≡ turned from stripes t }
{
    if from >= stripes {
        return t;
    }
    if t < stripes - from {
        from + t
    } else {
        t - (stripes - from)
    }
}
