// Prints figures of document 01 as the proved functions work them out: products and an inverse of bytes, and the shares of a stripe of two
// bytes, 05 and 03, on two boards (n=2, k=d=r=1), whose F is 05 + 03 Y; then that stripe again from board 0's share.

#![tactic(auto)]

// Writes a byte as two hexadecimal digits.
fn print_byte(b: u8) {
    io::print_hex(1, b as u64, 2);
}

// Writes a times b.
fn print_product(a: u8, b: u8) {
    print_byte(a);
    io::write_all(1, b" x ");
    print_byte(b);
    io::write_all(1, b" = ");
    print_byte(gf256_mul::mul(a, b));
    io::write_all(1, b"\n");
}

// Writes two bytes, and ends the line.
fn print_pair(a: u8, b: u8) {
    print_byte(a);
    io::write_all(1, b" ");
    print_byte(b);
    io::write_all(1, b"\n");
}

fn main() {
    print_product(0x80, 0x02);
    print_product(0x03, 0x03);
    print_product(0x02, 0x8E);
    print_product(0x00, 0xFF);
    io::write_all(1, b"inverse of 02 = ");
    print_byte(gf256_rows::inverse(0x02));
    io::write_all(1, b"\n");
    let stripe = [0x05u8, 0x03];
    let at0 = interpolation::eval(&stripe, 0);
    let at1 = interpolation::eval(&stripe, 1);
    io::write_all(1, b"board 0 keeps ");
    print_pair(at0, at1);
    io::write_all(1, b"board 1 keeps ");
    print_pair(at1, at0);
    let points = [0u8, 1];
    let mut values = [at0, at1];
    let mut inverses = [0u8; 256];
    interpolation::fill_inverses(&mut inverses);
    interpolation::interpolate(&inverses, &points, &mut values);
    io::write_all(1, b"the stripe again is ");
    print_pair(values[0], values[1]);
}
