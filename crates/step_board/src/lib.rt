// The share of one fresh board of a started repair, from the packets that lie for it in the packet area.
// Assumes nothing.

#![tactic(auto)]

ghost use Rattle.std.specs.Prelude.{◌≡◌, true, [], ◌∷◌, ◌++◌, ◌+◌, ◌-◌, ◌*◌, ◌<◌, ◌≤◌, length, get_or, drop};
ghost use Rattle.lists.specs.Tests.{below, different};
ghost use Rattle.lists.specs.Lists.{tabulate, piece};
ghost use Rattle.gf256.specs.Field.{inverse};
ghost use Rattle.sizes.specs.Sizing.{legal, α};
ghost use Rattle.mbcr.specs.Share.{DifferentPoints};
ghost use Rattle.mbcr.specs.Rebuild.{finished_share};
ghost use Rattle.stripe_finish.specs.Steps.{board_rows};
ghost use Rattle.repair_rows.specs.Steps.{others_at};

use sizes::Sizes;

// Lagrange's rows of the a-th fresh board, with these helpers and stand-ins. boards and all are for work.
fn rows_in(
    points: &[u8],
    inverses: &[u8],
    fresh: &[usize],
    helpers: &[usize],
    standins: &[usize],
    a: usize,
    boards: &mut [usize],
    all: &mut [usize],
    rows: &mut [u8],
)
    requires { (inverses.now ≡ tabulate 256 inverse) × (length points.now ≡ 32) × (a < length fresh.now) × (length helpers.now + length standins.now + length fresh.now ≤ 32) × (below 32 fresh.now ≡ true) × (below 32 helpers.now ≡ true) × (below 32 standins.now ≡ true) × (length boards.old ≡ length standins.now + (length fresh.now - 1)) × (length all.old ≡ length helpers.now + length boards.old + 1) × (length rows.old ≡ (length helpers.now + length all.old) * 32) }
    ensures { rows.new ≡ board_rows points.now helpers.now (standins.now ++ others_at fresh.now a) (get_or fresh.now a 0) }
{
    repair_rows::partners(standins, fresh, a, boards);
    stripe_finish::board_rows(points, helpers, boards, fresh[a], inverses, all, rows);
}

// The same, with space of its own.
fn rows_of(
    points: &[u8],
    inverses: &[u8],
    fresh: &[usize],
    helpers: &[usize],
    standins: &[usize],
    a: usize,
    rows: &mut [u8],
)
    requires { (inverses.now ≡ tabulate 256 inverse) × (length points.now ≡ 32) × (a < length fresh.now) × (length helpers.now + length standins.now + length fresh.now ≤ 32) × (below 32 fresh.now ≡ true) × (below 32 helpers.now ≡ true) × (below 32 standins.now ≡ true) × (length rows.old ≡ (length helpers.now + (length helpers.now + length standins.now + length fresh.now)) * 32) }
    ensures { rows.new ≡ board_rows points.now helpers.now (standins.now ++ others_at fresh.now a) (get_or fresh.now a 0) }
{
    let m = standins.len() + (fresh.len() - 1);
    let w = helpers.len() + m + 1;
    let mut boards = [0usize; 32];
    let mut all = [0usize; 32];
    rows_in(
        points,
        inverses,
        fresh,
        helpers,
        standins,
        a,
        &mut boards[0..m],
        &mut all[0..w],
        rows,
    );
}

// The share of the a-th fresh board, with these helpers and stand-ins, from the packets of its helpers, its stand-ins and the other fresh boards. rows is
// for work.
fn share_in(
    sizes: Sizes,
    points: &[u8],
    inverses: &[u8],
    stripes: usize,
    fresh: &[usize],
    helpers: &[usize],
    standins: &[usize],
    a: usize,
    packets: &[u8],
    stood: &[u8],
    exchanges: &[u8],
    rows: &mut [u8],
    out: &mut [u8],
)
    requires { (legal sizes ≡ true) × (length points.now ≡ 32) × DifferentPoints sizes points.now × (inverses.now ≡ tabulate 256 inverse) × (stripes ≤ 4096) × (a < length fresh.now) × (length helpers.now ≡ sizes.d) × (length standins.now + length fresh.now ≡ sizes.r) × (below sizes.n fresh.now ≡ true) × (below sizes.n (helpers.now ++ (standins.now ++ others_at fresh.now a) ++ (get_or fresh.now a 0 ∷ [])) ≡ true) × (different (helpers.now ++ (standins.now ++ others_at fresh.now a) ++ (get_or fresh.now a 0 ∷ [])) ≡ true) × (length packets.now ≡ sizes.d * (2 * stripes)) × (length stood.now ≡ length standins.now * stripes) × (length exchanges.now ≡ (length fresh.now - 1) * stripes) × (length rows.old ≡ (sizes.d + (sizes.d + sizes.r)) * 32) × (length out.old ≡ stripes * α sizes) }
    ensures { out.new ≡ finished_share sizes points.now stripes (get_or fresh.now a 0) helpers.now packets.now (standins.now ++ others_at fresh.now a) (stood.now ++ exchanges.now) }
{
    let lanes = row_values::whole_vectors(sizes.n);
    rows_of(points, inverses, fresh, helpers, standins, a, rows);
    step_share::share_work(
        sizes,
        fresh[a],
        lanes,
        rows,
        stripes,
        standins.len(),
        packets,
        stood,
        exchanges,
        out,
    );
}

// The share of the a-th fresh board, with these helpers and stand-ins, from the packet area.
pub fn share_of(
    sizes: Sizes,
    points: &[u8],
    inverses: &[u8],
    stripes: usize,
    fresh: &[usize],
    helpers: &[usize],
    standins: &[usize],
    a: usize,
    packets: &[u8],
    out: &mut [u8],
)
    requires { (legal sizes ≡ true) × (length points.now ≡ 32) × DifferentPoints sizes points.now × (inverses.now ≡ tabulate 256 inverse) × (stripes ≤ 4096) × (a < length fresh.now) × (length helpers.now ≡ sizes.d) × (length standins.now + length fresh.now ≡ sizes.r) × (below sizes.n fresh.now ≡ true) × (below sizes.n (helpers.now ++ (standins.now ++ others_at fresh.now a) ++ (get_or fresh.now a 0 ∷ [])) ≡ true) × (different (helpers.now ++ (standins.now ++ others_at fresh.now a) ++ (get_or fresh.now a 0 ∷ [])) ≡ true) × (length packets.now ≡ stripes * length fresh.now * α sizes) × (length out.old ≡ stripes * α sizes) }
    ensures { out.new ≡ finished_share sizes points.now stripes (get_or fresh.now a 0) helpers.now (piece (sizes.d * (2 * stripes)) a packets.now) (standins.now ++ others_at fresh.now a) (piece (length standins.now * stripes) a (drop (length fresh.now * (sizes.d * (2 * stripes))) packets.now) ++ piece ((length fresh.now - 1) * stripes) a (drop (length fresh.now * (sizes.d * (2 * stripes)) + length fresh.now * (length standins.now * stripes)) packets.now)) }
{
    let t = fresh.len();
    let w = sizes.d * (2 * stripes);
    let v = standins.len() * stripes;
    let x = (t - 1) * stripes;
    let from = a * w;
    let to = from + w;
    let start = t * w + a * v;
    let end = start + v;
    let first = t * w + t * v + a * x;
    let last = first + x;
    let m = (sizes.d + (sizes.d + sizes.r)) * 32;
    let mut rows = [0u8; 2048];
    share_in(
        sizes,
        points,
        inverses,
        stripes,
        fresh,
        helpers,
        standins,
        a,
        &packets[from..to],
        &packets[start..end],
        &packets[first..last],
        &mut rows[0..m],
        out,
    );
}
