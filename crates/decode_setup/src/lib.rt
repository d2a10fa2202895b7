// The tables of a read, which depend on sizes, points and boards alone: made once a call.
// Assumes nothing.

#![tactic(auto)]

ghost use Rattle.std.specs.Prelude.{◌≡◌, length};
ghost use Rattle.lists.specs.Lists.{tabulate};
ghost use Rattle.gf256.specs.Field.{inverse};
ghost use Rattle.decode_stripe.specs.Steps.{Asked};
ghost use Rattle.decode_setup.specs.Steps.{Made};

use sizes::Sizes;

// The tables of a read, each in its place.
pub fn fill(sizes: Sizes, points: &[u8], inverses: &[u8], boards: &[usize], tables: &mut [u8])
    requires { Asked sizes points.now boards.now × (inverses.now ≡ tabulate 256 inverse) × (length points.now ≡ 32) × (length tables.old ≡ 49152) }
    ensures { Made sizes points.now boards.now tables.new }
{
    let d = sizes.d;
    let w = d + sizes.r;
    let g = 7680;
    let unit = 15872;
    let seed = 32256;
    let top = 48128;
    setup_rows::factors_at(sizes, points, inverses, w, boards, 0, tables);
    setup_rows::factors_at(sizes, points, inverses, d, boards, g, tables);
    setup_rows::unit_tables(sizes, points, inverses, boards, unit, tables);
    setup_rows::row_tables(points, inverses, boards, d, seed, tables);
    setup_tops::tops_at(sizes, points, inverses, boards, top, tables);
}
