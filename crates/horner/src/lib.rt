// A polynomial whose coefficients are rows, at a point: Horner's rule on whole rows.
// Assumes nothing.

#![tactic(auto)]

ghost use Rattle.std.specs.Prelude.{◌≡◌, ◌+◌, ◌*◌, ◌≤◌, length, get_or};
ghost use Rattle.lists.specs.Lists.{tabulate};
ghost use Rattle.polynomial.specs.Polynomial.{plus, scale, eval};

// A row plus x times what is in acc, in its place.
pub fn horner_row(x: u8, row: &[u8], acc: &mut [u8])
    requires { length row.now ≡ length acc.old }
    ensures { acc.new ≡ plus row.now (scale x acc.old) }
{
    let m = gf256_mul::multiples_of(x);
    for j in 0..acc.len() {
        acc[j] = row[j] ^ gf256_mul::times(m, acc[j]);
    }
}

// The polynomial whose coefficients are d rows of 32 bytes, at x: byte by byte, in place of the zeros in acc, from the last row down.
pub fn rows_at(rows: &[u8], x: u8, d: usize, acc: &mut [u8])
    requires { (d ≤ 32) × (d * 32 ≤ length rows.now) × (acc.old ≡ tabulate 32 (λ _. 0)) }
    ensures { acc.new ≡ tabulate 32 (λ m. eval (tabulate d (λ i. get_or rows.now (i * 32 + m) 0)) x) }
{
    for i in (0..d).rev() {
        let at = i * 32;
        let end = at + 32;
        horner_row(x, &rows[at..end], acc);
    }
}
