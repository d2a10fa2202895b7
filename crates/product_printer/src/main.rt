// Writes products and inverses as the proved functions work them out: for each byte a of its standard input, of which it reads at most 256, the
// products of a and 00 to FF, and then the inverse of a: 257 bytes. tests/products.sh holds them to the unrelated coder's own field.

#![tactic(auto)]

// Writes the row of a.
fn print_row(a: u8) {
    let mut row = [0u8; 257];
    for b in 0..256usize {
        row[b] = gf256_mul::mul(a, b as u8);
    }
    row[256] = gf256_rows::inverse(a);
    io::write_all(1, &row);
}

fn main(rt: HostRuntime) {
    let mut reader = rt.stdin();
    let mut input = [0u8; 256];
    let got = standard_input::read_once(&mut reader, &mut input);
    let n = io::count(got, &input);
    for a in &input[..n] {
        print_row(*a);
    }
}
