// Matrices of bytes, in rows of 32: sums of rows that are looked up in tables of their multiples, columns, and parts of rows.
// specs/Steps.antt of the crate decode_laws says what each function works out.
// Assumes nothing.

#![tactic(auto)]

ghost use Rattle.std.specs.Prelude.{◌≡◌, List, ℕ, ◌+◌, ◌*◌, ◌<◌, ◌≤◌, length, take};
ghost use Rattle.lists.specs.Lists.{tabulate};
ghost use Rattle.decode_laws.specs.Steps.{cell, by_rows, by_columns, turned, parts};
ghost use Rattle.decode_rows.specs.Steps.{TabledRows};

// The sums of m rows, each times m numbers of a that stand one after another.
pub fn by_rows(count: usize, m: usize, a: &[u8], tables: &[u8], out: &mut [u8])
    requires { (count ≤ 32) × (m ≤ 32) × (count * m ≤ length a.now) × (m * 512 ≤ length tables.now) × (length out.old ≡ count * 32) }
    ensures { (rows : List ℕ) → m * 32 ≤ length rows → TabledRows m rows tables.now → out.new ≡ by_rows count m a.now rows }
{
    for i in 0..count {
        let from = i * m;
        let to = from + m;
        let at = i * 32;
        let end = at + 32;
        let row = column_sums::row_sum(tables, &a[from..to]);
        row_sums::put_row(row, &mut out[at..end]);
    }
}

// The sums of m rows, each times byte from, from + 1, .. of the m rows of a.
pub fn by_columns(count: usize, from: usize, m: usize, a: &[u8], tables: &[u8], out: &mut [u8])
    requires { (from + count ≤ 32) × (m ≤ 32) × (m * 32 ≤ length a.now) × (m * 512 ≤ length tables.now) × (length out.old ≡ count * 32) }
    ensures { (rows : List ℕ) → m * 32 ≤ length rows → TabledRows m rows tables.now → out.new ≡ by_columns count from m a.now rows }
{
    for i in 0..count {
        let j = from + i;
        let at = i * 32;
        let end = at + 32;
        let row = column_sums::column_sum(tables, a, j, m);
        row_sums::put_row(row, &mut out[at..end]);
    }
}

// Byte i of each row, from one on, as many as out is long.
pub fn gather(rows: &[u8], from: usize, i: usize, out: &mut [u8])
    requires { (from ≤ 32) × (i < 32) × (from * 32 + length out.old * 32 ≤ length rows.now) }
    ensures { out.new ≡ tabulate (length out.old) (λ j. cell rows.now (from + j) i) }
{
    for t in 0..out.len() {
        let at = (from + t) * 32 + i;
        out[t] = rows[at];
    }
}

// For each of the first bytes, that byte of m rows, from one on.
pub fn turned(count: usize, from: usize, m: usize, rows: &[u8], out: &mut [u8])
    requires { (count ≤ 32) × (from ≤ 32) × (m ≤ 32) × (from * 32 + m * 32 ≤ length rows.now) × (length out.old ≡ count * m) }
    ensures { out.new ≡ turned count from m rows.now }
{
    for i in 0..count {
        let at = i * m;
        let end = at + m;
        gather(rows, from, i, &mut out[at..end]);
    }
}

// The first bytes of a, as many as out has.
pub fn copy(a: &[u8], out: &mut [u8])
    requires { length out.old ≤ length a.now }
    ensures { out.new ≡ take (length out.old) a.now }
{
    let m = out.len();
    out.copy_from_slice(&a[..m]);
}

// The first m bytes of each row.
pub fn parts(count: usize, m: usize, rows: &[u8], out: &mut [u8])
    requires { (count ≤ 32) × (m ≤ 32) × (count * 32 ≤ length rows.now) × (length out.old ≡ count * m) }
    ensures { out.new ≡ parts count 0 m rows.now }
{
    for i in 0..count {
        let from = i * 32;
        let to = from + 32;
        let at = i * m;
        let end = at + m;
        copy(&rows[from..to], &mut out[at..end]);
    }
}
