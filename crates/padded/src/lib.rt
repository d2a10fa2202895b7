// Bytes of a file from a place on, filled up with 00.
// Assumes nothing.

#![tactic(auto)]

ghost use Rattle.std.specs.Prelude.{◌≡◌, ◌*◌, ◌≤◌, length, get_or, drop};
ghost use Rattle.lists.specs.Lists.{fit};

// The byte at a place of a file; past its end, 0.
fn byte(file: &[u8], at: usize) -> u8
    ensures { result ≡ get_or file.now at 0 }
{
    file.get(at).copied().unwrap_or(0)
}

// As many bytes of a file from base on as out is long; past the file's end, 0.
pub fn pad(file: &[u8], base: usize, out: &mut [u8])
    requires { (base ≤ 4096 * 992) × (length out.old ≤ 992) }
    ensures { out.new ≡ fit (length out.old) (drop base file.now) }
{
    for t in 0..out.len() {
        out[t] = byte(file, base + t);
    }
}
