// Lagrange's rows of all fresh boards of a repair, made once.
// Assumes nothing.

#![tactic(auto)]

ghost use Rattle.std.specs.Prelude.{◌≡◌, true, ◌++◌, ◌+◌, ◌-◌, ◌*◌, ◌<◌, ◌≤◌, length};
ghost use Rattle.lists.specs.Tests.{below};
ghost use Rattle.lists.specs.Lists.{tabulate, join};
ghost use Rattle.gf256.specs.Field.{inverse};
ghost use Rattle.sizes.specs.Sizing.{legal};
ghost use Rattle.repair_hear.specs.Steps.{Naming};
ghost use Rattle.repair_rows.specs.Steps.{past, others_at, fresh_rows};

use sizes::Sizes;

// The place of the u-th board other than the a-th.
pub fn past(a: usize, u: usize) -> usize
    requires { u < 32 }
    ensures { result ≡ past a u }
{
    if u < a { u } else { u + 1 }
}

// The fresh boards other than the a-th.
fn other_boards(fresh: &[usize], a: usize, out: &mut [usize])
    requires { (length fresh.now ≤ 32) × (length out.old ≡ length fresh.now - 1) × (1 ≤ length fresh.now) }
    ensures { out.new ≡ others_at fresh.now a }
{
    for u in 0..out.len() {
        let b = past(a, u);
        out[u] = fresh[b];
    }
}

// The partners of the a-th fresh board: its stand-ins, then the other fresh boards.
pub fn partners(standins: &[usize], fresh: &[usize], a: usize, out: &mut [usize])
    requires { (length fresh.now ≤ 32) × (1 ≤ length fresh.now) × (length standins.now ≤ 32) × (length out.old ≡ length standins.now + (length fresh.now - 1)) }
    ensures { out.new ≡ standins.now ++ others_at fresh.now a }
{
    let e = standins.len();
    stripe_finish::copy_boards(standins, &mut out[0..e]);
    other_boards(fresh, a, &mut out[e..]);
}

// The rows of the a-th fresh board, which names c boards. boards and all are for work.
fn fresh_rows(
    sizes: Sizes,
    points: &[u8],
    inverses: &[u8],
    fresh: &[usize],
    c: usize,
    named: &[usize],
    a: usize,
    boards: &mut [usize],
    all: &mut [usize],
    rows: &mut [u8],
)
    requires { (legal sizes ≡ true) × (length points.now ≡ 32) × (inverses.now ≡ tabulate 256 inverse) × Naming sizes (length fresh.now) c × (below sizes.n fresh.now ≡ true) × (length named.now ≡ length fresh.now * c) × (below sizes.n named.now ≡ true) × (a < length fresh.now) × (length boards.old ≡ sizes.r - 1) × (length all.old ≡ sizes.d + sizes.r) × (length rows.old ≡ (sizes.d + (sizes.d + sizes.r)) * 32) }
    ensures { rows.new ≡ fresh_rows sizes c points.now fresh.now named.now a }
{
    let from = a * c;
    let mid = from + sizes.d;
    let to = from + c;
    partners(&named[mid..to], fresh, a, boards);
    stripe_finish::board_rows(
        points,
        &named[from..mid],
        boards,
        fresh[a],
        inverses,
        all,
        rows,
    );
}

// The rows of all fresh boards, one after another. boards and all are for work.
fn rows_in(
    sizes: Sizes,
    points: &[u8],
    inverses: &[u8],
    fresh: &[usize],
    c: usize,
    named: &[usize],
    boards: &mut [usize],
    all: &mut [usize],
    rows: &mut [u8],
)
    requires { (legal sizes ≡ true) × (length points.now ≡ 32) × (inverses.now ≡ tabulate 256 inverse) × Naming sizes (length fresh.now) c × (below sizes.n fresh.now ≡ true) × (length named.now ≡ length fresh.now * c) × (below sizes.n named.now ≡ true) × (length boards.old ≡ sizes.r - 1) × (length all.old ≡ sizes.d + sizes.r) × (length rows.old ≡ length fresh.now * ((sizes.d + (sizes.d + sizes.r)) * 32)) }
    ensures { rows.new ≡ join (length fresh.now) (fresh_rows sizes c points.now fresh.now named.now) }
{
    let one = (sizes.d + (sizes.d + sizes.r)) * 32;
    for a in 0..fresh.len() {
        let at = a * one;
        let end = at + one;
        fresh_rows(
            sizes,
            points,
            inverses,
            fresh,
            c,
            named,
            a,
            boards,
            all,
            &mut rows[at..end],
        );
    }
}

// The same, with space of its own.
pub fn all_rows(
    sizes: Sizes,
    points: &[u8],
    inverses: &[u8],
    fresh: &[usize],
    c: usize,
    named: &[usize],
    rows: &mut [u8],
)
    requires { (legal sizes ≡ true) × (length points.now ≡ 32) × (inverses.now ≡ tabulate 256 inverse) × Naming sizes (length fresh.now) c × (below sizes.n fresh.now ≡ true) × (length named.now ≡ length fresh.now * c) × (below sizes.n named.now ≡ true) × (length rows.old ≡ length fresh.now * ((sizes.d + (sizes.d + sizes.r)) * 32)) }
    ensures { rows.new ≡ join (length fresh.now) (fresh_rows sizes c points.now fresh.now named.now) }
{
    let m = sizes.r - 1;
    let w = sizes.d + sizes.r;
    let mut boards = [0usize; 32];
    let mut all = [0usize; 32];
    rows_in(
        sizes,
        points,
        inverses,
        fresh,
        c,
        named,
        &mut boards[0..m],
        &mut all[0..w],
        rows,
    );
}
