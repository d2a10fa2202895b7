//! A read from the area: DISAGREE, looked at over all stripes before a byte is written, and the file that k boards' parts give.

#![tactic(auto)]

ghost use Rattle.std.specs.Prelude.{◌≡◌, true, not, [], ◌++◌, map, ◌*◌, ◌≤◌, length, drop};
ghost use Rattle.lists.specs.Lists.{joined};
ghost use Rattle.lists.specs.Tests.{below, given};
ghost use Rattle.sizes.specs.Sizing.{α, stripes as stripesOf};
ghost use Rattle.sizes.specs.Refusals.{◌when◌};
ghost use Rattle.mbcr.specs.Read.{decoded_file, read_file};
ghost use Rattle.line_checks.specs.Steps.{asked};
ghost use Rattle.store_spec.specs.Record.{held};
ghost use Rattle.store_lines.specs.Steps.{record_of};
ghost use Rattle.decode_stripe.specs.Steps.{Asked};
ghost use Rattle.decode_setup.specs.Steps.{Made};

use sizes::{Refusal, Sizes};

// Where the parts of boards start, in an area of parts of so many bytes.
pub fn places(boards: &[usize], part: usize, out: &mut [usize])
    requires { (below 32 boards.now ≡ true) × (part ≤ 253952) × (length boards.now ≤ 32) × (length out.old ≡ length boards.now) }
    ensures { out.new ≡ map (λ b. b * part) boards.now }
{
    for t in 0..boards.len() {
        out[t] = boards[t] * part;
    }
}

// The tables of a read, of sizes, points and boards alone.
pub fn fill_tables(sizes: Sizes, points: &[u8], boards: &[usize], tables: &mut [u8])
    requires { Asked sizes points.now boards.now × (length points.now ≡ 32) × (length tables.old ≡ 49152) }
    ensures { Made sizes points.now boards.now tables.new }
{
    let mut inverses = [0u8; 256];
    inverses::fill_inverses(&mut inverses);
    decode_setup::fill(sizes, points, &inverses, boards, tables);
}

// 10 DISAGREE: whether no file of so many bytes has these boards' shares, looked at over all stripes.
pub fn check_agrees(
    sizes: Sizes,
    capacity: usize,
    points: &[u8],
    len: usize,
    stripes: usize,
    boards: &[usize],
    area: &[u8],
    tables: &[u8],
) -> Result<(), Refusal>
    requires { Asked sizes points.now boards.now × (stripes ≡ stripesOf sizes len) × (capacity ≤ 4096) × (stripes ≤ capacity) × (length area.now ≡ sizes.n * (capacity * α sizes)) × Made sizes points.now boards.now tables.now }
    ensures { result ≡ asked (Refusal.Disagree when not (given (read_file sizes points.now len boards.now (joined (held (record_of sizes [] capacity true len []) area.now) boards.now)))) }
{
    let k = sizes.k;
    let part = capacity * sizes.share_len();
    let mut starts = [0usize; 32];
    places(boards, part, &mut starts[0..k]);
    if decode_file::agrees(
        sizes,
        points,
        len,
        stripes,
        boards,
        &starts[0..k],
        area,
        tables,
    ) {
        Ok(())
    } else {
        Err(Refusal::Disagree)
    }
}

// The file of so many bytes that these boards' shares decode to, to the beginning of out.
pub fn write_file(
    sizes: Sizes,
    capacity: usize,
    points: &[u8],
    len: usize,
    stripes: usize,
    boards: &[usize],
    area: &[u8],
    tables: &[u8],
    out: &mut [u8],
)
    requires { Asked sizes points.now boards.now × (stripes ≡ stripesOf sizes len) × (capacity ≤ 4096) × (stripes ≤ capacity) × (length area.now ≡ sizes.n * (capacity * α sizes)) × Made sizes points.now boards.now tables.now × (len ≤ length out.old) }
    ensures { out.new ≡ decoded_file sizes points.now len boards.now (joined (held (record_of sizes [] capacity true len []) area.now) boards.now) ++ drop len out.old }
{
    let k = sizes.k;
    let part = capacity * sizes.share_len();
    let mut starts = [0usize; 32];
    places(boards, part, &mut starts[0..k]);
    decode_file::write_file(
        sizes,
        points,
        len,
        stripes,
        boards,
        &starts[0..k],
        area,
        tables,
        out,
    );
}
