// The products of two rows of bytes.
// Assumes nothing.

#![tactic(auto)]

ghost use Rattle.std.specs.Prelude.{◌≡◌, length};
ghost use Rattle.row_products.specs.Steps.{products};

// Each byte of a times the byte of b in the same place, in its place.
pub fn scale_by(b: &[u8], a: &mut [u8])
    requires { length a.old ≡ length b.now }
    ensures { a.new ≡ products a.old b.now }
{
    for j in 0..a.len() {
        let m = gf256_mul::multiples_of(a[j]);
        a[j] = gf256_mul::times(m, b[j]);
    }
}
