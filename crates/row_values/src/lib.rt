// Sums of rows: the values of a polynomial at all points, from Lagrange's rows; and what a board keeps of such a row.
// Assumes nothing.

#![tactic(auto)]

ghost use Rattle.std.specs.Prelude.{◌≡◌, ◌*◌, ◌%◌, ◌<◌, ◌≤◌, length};
ghost use Rattle.row_values.specs.Steps.{row_sums, turned};

// So many bytes that they are whole vectors, where m are asked for.
pub fn whole_vectors(m: usize) -> usize
    requires { m ≤ 32 }
    ensures { (m ≤ result) × (result ≤ 32) }
{
    if m <= 16 { 16 } else { 32 }
}

// The sum of each row of 32 bytes times its value, as many bytes of it as out has.
pub fn row_sums(values: &[u8], rows: &[u8], out: &mut [u8])
    requires { (length values.now * 32 ≤ length rows.now) × (length values.now ≤ 32) × (length out.old ≤ 32) }
    ensures { out.new ≡ row_sums (length out.old) values.now rows.now }
{
    row_dots::clear(out);
    for t in 0..values.len() {
        let at = t * 32;
        let end = at + 32;
        gf256_rows::add_scaled(values[t], &rows[at..end], out);
    }
}

// The bytes of a row from place i on, modulo n.
pub fn emit_turned(row: &[u8], n: usize, i: usize, out: &mut [u8])
    requires { (i < n) × (n ≤ 32) × (n ≤ length row.now) }
    ensures { out.new ≡ turned n i (length out.old) row.now }
{
    let mut b = i;
    for t in 0..out.len() {
        out[t] = row[b];
        b = lagrange_factors::next(b, n);
    }
}
