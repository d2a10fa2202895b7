// Whether two boards hold their shares of the file that k others hold (request A.11): stripe after stripe is decoded, what each of the two keeps of it
// is worked out as a share of a file is, by tables of powers, and compared with what it holds.
// Assumes nothing.

#![tactic(auto)]

ghost use Rattle.std.specs.Prelude.{◌≡◌, true, ◌+◌, ◌*◌, ◌<◌, ◌≤◌, length};
ghost use Rattle.lists.specs.Tests.{given};
ghost use Rattle.sizes.specs.Sizing.{α, B};
ghost use Rattle.mbcr.specs.Share.{kept};
ghost use Rattle.board_spec.specs.Calls.{file_of};
ghost use Rattle.store_spec.specs.Record.{sound, area_len, stripe_count};
ghost use Rattle.store_spec.specs.Calls.{file_held};
ghost use Rattle.store_spec.specs.Careful.{holds_share};
ghost use Rattle.record.specs.Records.{record_of};
ghost use Rattle.decode_laws.specs.Steps.{Placed};
ghost use Rattle.decode_stripe.specs.Steps.{Asked};
ghost use Rattle.decode_setup.specs.Steps.{Made};
ghost use Rattle.row_sums.specs.Steps.{Tabled};
ghost use Rattle.powers.specs.Steps.{power_rows};
ghost use Rattle.stripe_holds.specs.Steps.{holds_stripes};

use record::Kept;
use sizes::Sizes;
use stripe_holds::Held;

// Whether boards p and q hold what they keep of each of so many stripes, looked at from one of them on until neither can hold its share.
fn hold_stripes(
    sizes: Sizes,
    points: &[u8],
    boards: &[usize],
    starts: &[usize],
    tables: &[u8],
    powers: &[u8],
    stripes: usize,
    from: usize,
    p: usize,
    first: usize,
    q: usize,
    second: usize,
    area: &[u8],
    u: &mut [u8],
    rows: &mut [u8],
) -> Held
    requires { Asked sizes points.now boards.now × (length starts.now ≡ sizes.k) × Placed sizes starts.now area.now stripes × (stripes ≤ 4096) × Made sizes points.now boards.now tables.now × (length points.now ≡ 32) × (p < sizes.n) × (first + stripes * α sizes ≤ length area.now) × (q < sizes.n) × (second + stripes * α sizes ≤ length area.now) × (length area.now ≤ 8126464) × (length powers.now ≡ 16384) × Tabled (power_rows points.now (sizes.d + sizes.r)) powers.now × (length u.old ≡ B sizes) × (length rows.old ≡ 992) }
    ensures first_value { result.first ≡ holds_stripes sizes points.now boards.now starts.now area.now stripes first p }
    ensures second_value { result.second ≡ holds_stripes sizes points.now boards.now starts.now area.now stripes second q }
{
    let mut held = Held {
        first: true,
        second: true,
        at: from,
    };
    for t in 0..stripes {
        let s = stripe_holds::stripe_after(from, t, stripes);
        held = stripe_holds::hold_stripe(
            held, sizes, points, boards, starts, tables, powers, s, p, first, q, second, area, u,
            rows,
        );
        if !held.first && !held.second {
            return held;
        }
    }
    held
}

// Whether boards p and q hold their shares of the file that these k boards hold, where they hold one; the stripes are looked at from one of them on.
pub fn hold_two(
    kept: Kept,
    stripes: usize,
    from: usize,
    boards: &[usize],
    p: usize,
    q: usize,
    area: &[u8],
    tables: &[u8],
) -> Held
    requires { (sound (record_of kept) ≡ true) × (stripes ≡ stripe_count (record_of kept)) × Asked kept.sizes kept.points boards.now × (p < kept.sizes.n) × (q < kept.sizes.n) × (length area.now ≡ area_len (record_of kept)) × Made kept.sizes kept.points boards.now tables.now }
    ensures first_value { given (file_held (record_of kept) area.now boards.now) ≡ true → result.first ≡ holds_share (record_of kept) area.now (file_of (file_held (record_of kept) area.now boards.now)) p }
    ensures second_value { given (file_held (record_of kept) area.now boards.now) ≡ true → result.second ≡ holds_share (record_of kept) area.now (file_of (file_held (record_of kept) area.now boards.now)) q }
{
    let sizes = kept.sizes;
    let points = kept.points;
    let k = sizes.k;
    let b = sizes.stripe_len();
    let w = sizes.d + sizes.r;
    let part = kept.capacity * sizes.share_len();
    let first = p * part;
    let second = q * part;
    let mut starts = [0usize; 32];
    let mut powers = [0u8; 16384];
    let mut u = [0u8; 992];
    let mut rows = [0u8; 992];
    decode_area::places(boards, part, &mut starts[0..k]);
    powers::fill_powers(&points, w, &mut powers);
    hold_stripes(
        sizes,
        &points,
        boards,
        &starts[0..k],
        tables,
        &powers,
        stripes,
        from,
        p,
        first,
        q,
        second,
        area,
        &mut u[0..b],
        &mut rows,
    )
}
