// Rows of 32 bytes by value, and their sums. The definitions of sums of multiples of rows, looked up in tables of 16 multiples of each.
// Assumes nothing.

#![tactic(auto)]

ghost use Rattle.std.specs.Prelude.{◌≡◌, List, ℕ, ◌+◌, ◌*◌, ◌<◌, ◌≤◌, length, get_or, take, drop};
ghost use Rattle.polynomial.specs.Polynomial.{plus as sum_of};
ghost use Rattle.row_sums.specs.Steps.{bytes_of, row_bytes};

// 32 bytes.
#[derive(Clone, Copy)]
pub struct Row {
    pub a: u64,
    pub b: u64,
    pub c: u64,
    pub d: u64,
}

// Eight bytes from i on, the first the lowest.
fn word_at(t: &[u8], i: usize) -> u64
    requires { i + 8 ≤ length t.now }
    ensures { bytes_of 8 result ≡ take 8 (drop i t.now) }
{
    u64::from_le_bytes([
        t[i],
        t[i + 1],
        t[i + 2],
        t[i + 3],
        t[i + 4],
        t[i + 5],
        t[i + 6],
        t[i + 7],
    ])
}

// 32 bytes from i on.
pub fn row_at(t: &[u8], i: usize) -> Row
    requires { i + 32 ≤ length t.now }
    ensures { row_bytes result ≡ take 32 (drop i t.now) }
{
    Row {
        a: word_at(t, i),
        b: word_at(t, i + 8),
        c: word_at(t, i + 16),
        d: word_at(t, i + 24),
    }
}

// The sum of two rows.
pub fn plus(x: Row, y: Row) -> Row
    ensures { row_bytes result ≡ sum_of (row_bytes x) (row_bytes y) }
{
    Row {
        a: x.a ^ y.a,
        b: x.b ^ y.b,
        c: x.c ^ y.c,
        d: x.d ^ y.d,
    }
}

// The bytes of x, the lowest first.
fn put_word(x: u64, out: &mut [u8])
    requires { length out.old ≡ 8 }
    ensures { out.new ≡ bytes_of 8 x }
{
    out.copy_from_slice(&x.to_le_bytes());
}

// The bytes of a row.
pub fn put_row(x: Row, out: &mut [u8])
    requires { length out.old ≡ 32 }
    ensures { out.new ≡ row_bytes x }
{
    put_word(x.a, &mut out[0..8]);
    put_word(x.b, &mut out[8..16]);
    put_word(x.c, &mut out[16..24]);
    put_word(x.d, &mut out[24..32]);
}
