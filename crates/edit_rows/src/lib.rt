// Rows of an edit: a row added to another, and the bytes of a stripe, old against new.
// Assumes nothing.

#![tactic(auto)]

ghost use Rattle.std.specs.Prelude.{◌≡◌, ◌+◌, ◌≤◌, length, get_or};
ghost use Rattle.lists.specs.Lists.{tabulate};
ghost use Rattle.polynomial.specs.Polynomial.{plus};
ghost use Rattle.edit_rows.specs.Steps.{changed_at};

// Adds a row to another, byte by byte.
pub fn add_row(row: &[u8], out: &mut [u8])
    requires { length row.now ≡ length out.old }
    ensures { out.new ≡ plus out.old row.now }
{
    for j in 0..out.len() {
        out[j] = gf256_mul::add(out[j], row[j]);
    }
}

// By what byte p of a file changes where bytes are put from an offset on: old against new, and 00 where none of them is put.
fn changed(old: u8, p: usize, offset: usize, bytes: &[u8]) -> u8
    ensures { result ≡ changed_at offset bytes.now p old }
{
    if p < offset {
        return 0;
    }
    let at = p - offset;
    if bytes.len() <= at {
        return 0;
    }
    gf256_mul::add(old, bytes[at])
}

// The bytes of a file from one on, in place: old against new.
pub fn change(from: usize, offset: usize, bytes: &[u8], old: &mut [u8])
    requires { (from ≤ 4063232) × (length old.old ≤ 992) }
    ensures { old.new ≡ tabulate (length old.old) (λ q. changed_at offset bytes.now (from + q) (get_or old.old q 0)) }
{
    for q in 0..old.len() {
        old[q] = changed(old[q], from + q, offset, bytes);
    }
}
