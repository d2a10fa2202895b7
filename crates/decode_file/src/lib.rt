// A file from k boards: whether they agree, and its bytes. The share of boards[t] starts at starts[t] of the bytes, so that shares that stand
// one after another and parts of an area are read alike.
// Assumes nothing.

#![tactic(auto)]

ghost use Rattle.std.specs.Prelude.{◌≡◌, ◌++◌, ◌+◌, ◌≤◌, length, drop};
ghost use Rattle.lists.specs.Tests.{alls, given};
ghost use Rattle.lists.specs.Lists.{tabulate};
ghost use Rattle.sizes.specs.Sizing.{stripes as stripesOf};
ghost use Rattle.mbcr.specs.Read.{decoded_file, read_file};
ghost use Rattle.decode_laws.specs.Steps.{pairs_meet, held_at, Placed};
ghost use Rattle.decode_stripe.specs.Steps.{Asked};
ghost use Rattle.decode_setup.specs.Steps.{Made};
ghost use Rattle.decode_file.specs.Steps.{shares_at};

use sizes::Sizes;

// Whether the pairs of boards meet in each stripe.
fn pairs_meet(
    sizes: Sizes,
    points: &[u8],
    stripes: usize,
    boards: &[usize],
    starts: &[usize],
    bytes: &[u8],
    tables: &[u8],
) -> bool
    requires { Asked sizes points.now boards.now × (length starts.now ≡ sizes.k) × Placed sizes starts.now bytes.now stripes × (stripes ≤ 4096) × Made sizes points.now boards.now tables.now }
    ensures { result ≡ alls (tabulate stripes (λ s. pairs_meet sizes points.now boards.now (held_at sizes starts.now bytes.now s))) }
{
    let k = sizes.k;
    let d = sizes.d;
    let w = d + sizes.r;
    let f_end = k * ((sizes.n - w) * 32);
    let g = 7680;
    let g_end = g + k * ((sizes.n - d) * 32);
    let kept = k * 32;
    let mut fs = [0u8; 992];
    let mut gs = [0u8; 992];
    decode_pairs::stripes_meet(
        sizes,
        points,
        boards,
        starts,
        bytes,
        stripes,
        &tables[0..f_end],
        &tables[g..g_end],
        &mut fs[0..kept],
        &mut gs[0..kept],
    )
}

// Whether there is a file of len bytes with these shares: the pairs of boards meet, and the padding of a last stripe that is cut is 00.
pub fn agrees(
    sizes: Sizes,
    points: &[u8],
    len: usize,
    stripes: usize,
    boards: &[usize],
    starts: &[usize],
    bytes: &[u8],
    tables: &[u8],
) -> bool
    requires { Asked sizes points.now boards.now × (length starts.now ≡ sizes.k) × Placed sizes starts.now bytes.now stripes × (stripes ≤ 4096) × (stripes ≡ stripesOf sizes len) × Made sizes points.now boards.now tables.now }
    ensures { result ≡ given (read_file sizes points.now len boards.now (shares_at sizes stripes starts.now bytes.now)) }
{
    if !pairs_meet(sizes, points, stripes, boards, starts, bytes, tables) {
        return false;
    }
    let b = sizes.stripe_len();
    let whole = len / b;
    if whole < stripes {
        let rest = len - whole * b;
        return decode_padding::padding(sizes, points, whole, rest, boards, starts, bytes, tables);
    }
    true
}

// The file of len bytes that the stripes of these shares decode to, to the beginning of out.
pub fn write_file(
    sizes: Sizes,
    points: &[u8],
    len: usize,
    stripes: usize,
    boards: &[usize],
    starts: &[usize],
    bytes: &[u8],
    tables: &[u8],
    out: &mut [u8],
)
    requires { Asked sizes points.now boards.now × (length starts.now ≡ sizes.k) × Placed sizes starts.now bytes.now stripes × (stripes ≤ 4096) × (stripes ≡ stripesOf sizes len) × Made sizes points.now boards.now tables.now × (len ≤ length out.old) }
    ensures { out.new ≡ decoded_file sizes points.now len boards.now (shares_at sizes stripes starts.now bytes.now) ++ drop len out.old }
{
    decode_stripes::stripes(
        sizes,
        points,
        boards,
        starts,
        bytes,
        0,
        stripes,
        tables,
        &mut out[0..len],
    );
}
