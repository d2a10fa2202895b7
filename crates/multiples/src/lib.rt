// The sixteen multiples of a row of 32 bytes, as a sum of rows looks them up.
// Assumes nothing.

#![tactic(auto)]

ghost use Rattle.std.specs.Prelude.{◌≡◌, length};
ghost use Rattle.polynomial.specs.Polynomial.{scale};
ghost use Rattle.row_sums.specs.Steps.{multiples};
ghost use Rattle.multiples.specs.Steps.{window};

use row_sums::Row;

// Each byte times z, in its place.
fn double_all(a: &mut [u8])
    ensures { a.new ≡ scale 2 a.old }
{
    for byte in a {
        *byte = gf256_mul::double(*byte);
    }
}

// 0, 1, 2 and 3 times a row, which is left four times what it was.
fn fill_window(row: &mut [u8], t: &mut [u8])
    requires { (length row.old ≡ 32) × (length t.old ≡ 128) }
    ensures { (t.new ≡ window row.old) × (row.new ≡ scale 4 row.old) }
{
    let none = Row {
        a: 0,
        b: 0,
        c: 0,
        d: 0,
    };
    let one = row_sums::row_at(row, 0);
    double_all(row);
    let two = row_sums::row_at(row, 0);
    double_all(row);
    row_sums::put_row(none, &mut t[0..32]);
    row_sums::put_row(one, &mut t[32..64]);
    row_sums::put_row(two, &mut t[64..96]);
    row_sums::put_row(row_sums::plus(one, two), &mut t[96..128]);
}

// The sixteen multiples of a row.
pub fn fill_multiples(row: &[u8], t: &mut [u8])
    requires { (length row.now ≡ 32) × (length t.old ≡ 512) }
    ensures { t.new ≡ multiples row.now }
{
    let mut four = [0u8; 32];
    row_sums::put_row(row_sums::row_at(row, 0), &mut four);
    fill_window(&mut four, &mut t[0..128]);
    fill_window(&mut four, &mut t[128..256]);
    fill_window(&mut four, &mut t[256..384]);
    fill_window(&mut four, &mut t[384..512]);
}
