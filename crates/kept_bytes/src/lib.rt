// The bytes that a board keeps of a stripe, taken out of rows of values in the order of its neighbours.
// Assumes nothing.

#![tactic(auto)]

ghost use Rattle.std.specs.Prelude.{◌≡◌, true, ◌+◌, ◌*◌, ◌%◌, ◌<◌, ◌≤◌, length, get_or};
ghost use Rattle.sizes.specs.Sizing.{legal, α};
ghost use Rattle.kept_bytes.specs.Steps.{around, kept_of};

use sizes::Sizes;

// The board after b, modulo n.
fn next(b: usize, n: usize) -> usize
    requires { (b < n) × (n ≤ 32) }
    ensures { result ≡ (b + 1) % n }
{
    let c = b + 1;
    if c < n { c } else { 0 }
}

// The bytes of a row from i on, modulo n.
fn turned(row: &[u8], n: usize, i: usize, out: &mut [u8])
    requires { (i < n) × (n ≤ 32) × (n ≤ length row.now) }
    ensures { out.new ≡ around n (λ b. get_or row.now b 0) i (length out.old) }
{
    let mut b = i;
    for byte in out {
        *byte = row[b];
        b = next(b, n);
    }
}

// Byte i of the rows from row i on, modulo n.
fn turned_column(rows: &[u8], n: usize, i: usize, out: &mut [u8])
    requires { (i < n) × (n ≤ 32) × (n * 32 ≤ length rows.now) }
    ensures { out.new ≡ around n (λ b. get_or rows.now (b * 32 + i) 0) i (length out.old) }
{
    let mut b = i;
    for byte in out {
        let at = b * 32 + i;
        *byte = rows[at];
        b = next(b, n);
    }
}

// What board i keeps, out of a row for f and a row for g with a byte for each board.
pub fn keep_rows(sizes: Sizes, i: usize, f: &[u8], g: &[u8], out: &mut [u8])
    requires { (legal sizes ≡ true) × (i < sizes.n) × (sizes.n ≤ length f.now) × (sizes.n ≤ length g.now) × (length out.old ≡ α sizes) }
    ensures { out.new ≡ kept_of sizes (λ b. get_or f.now b 0) (λ b. get_or g.now b 0) i }
{
    let n = sizes.n;
    let m = sizes.d + sizes.r;
    let end = out.len();
    turned(f, n, i, &mut out[0..m]);
    turned(g, n, next(i, n), &mut out[m..end]);
}

// What board i keeps, out of a row for each board: f is byte i of each row, g is row i.
pub fn keep(sizes: Sizes, i: usize, rows: &[u8], out: &mut [u8])
    requires { (legal sizes ≡ true) × (i < sizes.n) × (sizes.n * 32 ≤ length rows.now) × (length out.old ≡ α sizes) }
    ensures { out.new ≡ kept_of sizes (λ b. get_or rows.now (b * 32 + i) 0) (λ b. get_or rows.now (i * 32 + b) 0) i }
{
    let n = sizes.n;
    let m = sizes.d + sizes.r;
    let end = out.len();
    let at = i * 32;
    let stop = at + 32;
    turned_column(rows, n, i, &mut out[0..m]);
    turned(&rows[at..stop], n, next(i, n), &mut out[m..end]);
}
