// Bytes cleared; and a law of loops that put pieces one behind another.
// Assumes nothing.

#![tactic(auto, using(crate::proofs::Cleared::zeros))]

ghost use Rattle.std.specs.Prelude.{◌≡◌, length};
ghost use Rattle.lists.specs.Lists.{tabulate};

// Zeros.
pub fn clear(out: &mut [u8])
    ensures { out.new ≡ tabulate (length out.old) (λ _. 0) }
{
    out.fill(0);
}
