// The rows of values of a stripe of a file, whose coefficients stand in a working array of 992 bytes; the last stripe is filled up with 00.
// Assumes nothing.

#![tactic(auto)]

ghost use Rattle.std.specs.Prelude.{◌≡◌, true, List, ◌++◌, ℕ, ◌+◌, ◌*◌, ◌<◌, length, drop};
ghost use Rattle.sizes.specs.Sizing.{legal};
ghost use Rattle.mbcr.specs.Share.{stripe};
ghost use Rattle.row_sums.specs.Steps.{Tabled};
ghost use Rattle.powers.specs.Steps.{power_rows};
ghost use Rattle.encode_values.specs.Steps.{row_values};

use sizes::Sizes;

// The values of all rows of the polynomial of stripe s of a file at all points, to the beginning of rows. The stripe's coefficients stand in their
// order in the working array.
pub fn stripe_rows(sizes: Sizes, tables: &[u8], file: &[u8], s: usize, rows: &mut [u8])
    requires { (legal sizes ≡ true) × (length tables.now ≡ 16384) × (s < 4096) × (length rows.old ≡ 992) }
    ensures { (points : List ℕ) → length points ≡ 32 → Tabled (power_rows points (sizes.d + sizes.r)) tables.now → rows.new ≡ row_values sizes points (stripe sizes file.now s) ++ drop (sizes.d * 32) rows.old }
{
    let b = sizes.stripe_len();
    let from = s * b;
    let mut coefficients = [0u8; 992];
    padded::pad(file, from, &mut coefficients[0..b]);
    encode_values::row_values(sizes, tables, &coefficients[0..b], rows);
}
