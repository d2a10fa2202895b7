// The inverse of each byte, by walking the powers of 02 and those of its inverse 8E: with no product.
// Assumes nothing.

#![tactic(auto)]

ghost use Rattle.std.specs.Prelude.{◌≡◌, length};
ghost use Rattle.lists.specs.Lists.{tabulate};
ghost use Rattle.gf256.specs.Field.{inverse};
ghost use Rattle.inverse_walk.specs.Steps.{halved};

// y divided by z.
fn half(y: u8) -> u8
    ensures { result ≡ halved y }
{
    (y / 2) ^ ((y % 2) * 0x8E)
}

// Fills a table with the inverse of each byte, at its place; that of 00, which has none, is 00.
pub fn fill_inverses(table: &mut [u8])
    requires { length table.old ≡ 256 }
    ensures { table.new ≡ tabulate 256 inverse }
{
    row_dots::clear(table);
    let mut x: u8 = 1;
    let mut y: u8 = 1;
    for _ in 0..255usize {
        table[x as usize] = y;
        x = gf256_mul::double(x);
        y = half(y);
    }
}
