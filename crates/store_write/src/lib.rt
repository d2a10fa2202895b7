// A write: stripe by stripe, what each board keeps of it to its place in the area.
// Assumes nothing.

#![tactic(auto)]

ghost use Rattle.std.specs.Prelude.{◌≡◌, true, List, [], ℕ, ◌+◌, ◌*◌, ◌<◌, ◌≤◌, length, get_or};
ghost use Rattle.lists.specs.Lists.{tabulate, join};
ghost use Rattle.sizes.specs.Sizing.{legal, α, stripes};
ghost use Rattle.mbcr.specs.Share.{stripe, kept, share};
ghost use Rattle.store_spec.specs.Record.{put_shares};
ghost use Rattle.store_lines.specs.Steps.{record_of};
ghost use Rattle.area_puts.specs.Steps.{puts};
ghost use Rattle.row_sums.specs.Steps.{Tabled};
ghost use Rattle.powers.specs.Steps.{power_rows};
ghost use Rattle.kept_bytes.specs.Steps.{kept_of};

use sizes::Sizes;

// What each board keeps of a stripe, out of the rows of values by board, to its place: a board's part has `part` bytes, and the stripe starts at `at`.
fn put_boards(sizes: Sizes, part: usize, at: usize, values: &[u8], area: &mut [u8])
    requires { (legal sizes ≡ true) × (part ≤ 253952) × (at + α sizes ≤ part) × (sizes.n * 32 ≤ length values.now) × (length area.old ≡ sizes.n * part) }
    ensures { area.new ≡ puts (λ i. i * part + at) (λ i. kept_of sizes (λ b. get_or values.now (b * 32 + i) 0) (λ b. get_or values.now (i * 32 + b) 0) i) sizes.n area.old }
{
    let n = sizes.n;
    let w = 2 * sizes.d + sizes.r - 1;
    for i in 0..n {
        let from = i * part + at;
        let to = from + w;
        kept_bytes::keep(sizes, i, values, &mut area[from..to]);
    }
}

// Stripe s of a file: what each board keeps of it, to its place. rows and values are for work.
fn write_stripe(
    sizes: Sizes,
    tables: &[u8],
    part: usize,
    file: &[u8],
    s: usize,
    rows: &mut [u8],
    values: &mut [u8],
    area: &mut [u8],
)
    requires { (legal sizes ≡ true) × (length tables.now ≡ 16384) × (part ≤ 253952) × (s < 4096) × (s * α sizes + α sizes ≤ part) × (length rows.old ≡ 992) × (length values.old ≡ 1024) × (length area.old ≡ sizes.n * part) }
    ensures { (points : List ℕ) → length points ≡ 32 → Tabled (power_rows points (sizes.d + sizes.r)) tables.now → area.new ≡ puts (λ i. i * part + s * α sizes) (λ i. kept sizes points (stripe sizes file.now s) i) sizes.n area.old }
{
    let at = s * (2 * sizes.d + sizes.r - 1);
    stripe_rows::stripe_rows(sizes, tables, file, s, rows);
    encode_values::column_values(tables, sizes.d, sizes.n, rows, values);
    put_boards(sizes, part, at, values, area);
}

// The first stripes of a file.
fn write_stripes(
    sizes: Sizes,
    tables: &[u8],
    part: usize,
    file: &[u8],
    count: usize,
    rows: &mut [u8],
    values: &mut [u8],
    area: &mut [u8],
)
    requires { (legal sizes ≡ true) × (length tables.now ≡ 16384) × (part ≤ 253952) × (count ≤ 4096) × (count * α sizes ≤ part) × (length rows.old ≡ 992) × (length values.old ≡ 1024) × (length area.old ≡ sizes.n * part) }
    ensures { (points : List ℕ) → length points ≡ 32 → Tabled (power_rows points (sizes.d + sizes.r)) tables.now → area.new ≡ puts (λ i. i * part) (λ i. join count (λ s. kept sizes points (stripe sizes file.now s) i)) sizes.n area.old }
{
    for s in 0..count {
        write_stripe(sizes, tables, part, file, s, rows, values, area);
    }
}

// The shares of a file of so many stripes, each at the beginning of its board's part of the area.
pub fn write_shares(
    sizes: Sizes,
    capacity: usize,
    points: &[u8],
    file: &[u8],
    count: usize,
    area: &mut [u8],
)
    requires { (legal sizes ≡ true) × (capacity ≤ 4096) × (length points.now ≡ 32) × (count ≡ stripes sizes (length file.now)) × (count ≤ capacity) × (length area.old ≡ sizes.n * (capacity * α sizes)) }
    ensures { area.new ≡ put_shares (record_of sizes [] capacity true 0 []) (share sizes points.now file.now) (tabulate sizes.n (λ i. i)) area.old }
{
    let part = capacity * (2 * sizes.d + sizes.r - 1);
    let m = sizes.d + sizes.r;
    let mut tables = [0u8; 16384];
    let mut rows = [0u8; 992];
    let mut values = [0u8; 1024];
    powers::fill_powers(points, m, &mut tables);
    write_stripes(
        sizes,
        &tables,
        part,
        file,
        count,
        &mut rows,
        &mut values,
        area,
    );
}
