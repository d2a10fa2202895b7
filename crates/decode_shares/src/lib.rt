//! A file from k shares that stand one after another: DISAGREE, looked at over all stripes before a byte is written, and the file.

#![tactic(auto)]

ghost use Rattle.std.specs.Prelude.{◌≡◌, not, ◌++◌, ◌*◌, ◌≤◌, length, drop};
ghost use Rattle.lists.specs.Lists.{tabulate};
ghost use Rattle.lists.specs.Tests.{given};
ghost use Rattle.gf256.specs.Field.{inverse};
ghost use Rattle.sizes.specs.Sizing.{α, stripes as stripesOf};
ghost use Rattle.sizes.specs.Refusals.{◌when◌};
ghost use Rattle.mbcr.specs.Read.{decoded_file, read_file};
ghost use Rattle.line_checks.specs.Steps.{asked};
ghost use Rattle.decode_stripe.specs.Steps.{Asked};
ghost use Rattle.decode_setup.specs.Steps.{Made};

use sizes::{Refusal, Sizes};

// Where shares of so many bytes start.
pub fn starts(share: usize, out: &mut [usize])
    requires { (share ≤ 253952) × (length out.old ≤ 32) }
    ensures { out.new ≡ tabulate (length out.old) (λ t. t * share) }
{
    for t in 0..out.len() {
        out[t] = t * share;
    }
}

// 10 DISAGREE: whether no file of so many bytes has these shares, looked at over all stripes. The tables of the read are made.
pub fn check_agrees(
    sizes: Sizes,
    points: &[u8],
    inverses: &[u8],
    total: usize,
    stripes: usize,
    boards: &[usize],
    held: &[u8],
    tables: &mut [u8],
) -> Result<(), Refusal>
    requires { Asked sizes points.now boards.now × (inverses.now ≡ tabulate 256 inverse) × (length points.now ≡ 32) × (stripes ≤ 4096) × (stripes ≡ stripesOf sizes total) × (length held.now ≡ sizes.k * (stripes * α sizes)) × (length tables.old ≡ 49152) }
    ensures { (result ≡ asked (Refusal.Disagree when not (given (read_file sizes points.now total boards.now held.now)))) × Made sizes points.now boards.now tables.new }
{
    let k = sizes.k;
    let share = stripes * sizes.share_len();
    let mut places = [0usize; 32];
    starts(share, &mut places[0..k]);
    decode_setup::fill(sizes, points, inverses, boards, tables);
    if decode_file::agrees(
        sizes,
        points,
        total,
        stripes,
        boards,
        &places[0..k],
        held,
        tables,
    ) {
        Ok(())
    } else {
        Err(Refusal::Disagree)
    }
}

// The file of so many bytes that the shares decode to, to the beginning of out.
pub fn write_file(
    sizes: Sizes,
    points: &[u8],
    total: usize,
    stripes: usize,
    boards: &[usize],
    held: &[u8],
    tables: &[u8],
    out: &mut [u8],
)
    requires { Asked sizes points.now boards.now × (stripes ≤ 4096) × (stripes ≡ stripesOf sizes total) × (length held.now ≡ sizes.k * (stripes * α sizes)) × Made sizes points.now boards.now tables.now × (total ≤ length out.old) }
    ensures { out.new ≡ decoded_file sizes points.now total boards.now held.now ++ drop total out.old }
{
    let k = sizes.k;
    let share = stripes * sizes.share_len();
    let mut places = [0usize; 32];
    starts(share, &mut places[0..k]);
    decode_file::write_file(
        sizes,
        points,
        total,
        stripes,
        boards,
        &places[0..k],
        held,
        tables,
        out,
    );
}
