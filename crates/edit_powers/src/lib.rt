// Rows of the powers of points, and a row added by a factor: nothing, for 00.
// Assumes nothing.

#![tactic(auto)]

ghost use Rattle.std.specs.Prelude.{◌≡◌, ◌+◌, ◌*◌, ◌<◌, length};
ghost use Rattle.gf256.specs.Field.{add_scaled};
ghost use Rattle.edit_powers.specs.Steps.{powers_of};

// The powers 0 to 31 of 32 points, a row for each.
pub fn fill_rows(points: &[u8], rows: &mut [u8])
    requires { (length points.now ≡ 32) × (length rows.old ≡ 1024) }
    ensures { rows.new ≡ powers_of points.now }
{
    let mut power = [1u8; 32];
    for j in 0..32 {
        let at = j * 32;
        let end = at + 32;
        row_dots::copy(&power, &mut rows[at..end]);
        row_products::scale_by(points, &mut power);
    }
}

// Adds c times a row: nothing, for 00.
pub fn add_times(c: u8, row: &[u8], acc: &mut [u8])
    ensures { acc.new ≡ add_scaled c row.now acc.old }
{
    if c != 0 {
        gf256_rows::add_scaled(c, row, acc);
    }
}
