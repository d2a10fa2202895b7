//! The check of an edit's bytes against the length of the file (request A.6).

#![tactic(auto)]

ghost use Rattle.std.specs.Prelude.{◌≡◌, ◌+◌, ltb};
ghost use Rattle.sizes.specs.Refusals.{◌when◌};
ghost use Rattle.line_checks.specs.Steps.{asked};

use sizes::Refusal;

// 15 RANGE: so many bytes at an offset go beyond a file's length. Their sum, which could wrap, is not worked out.
pub fn check_range(len: usize, offset: usize, count: usize) -> Result<(), Refusal>
    ensures { result ≡ asked (Refusal.Range when ltb len (offset + count)) }
{
    if len < count {
        return Err(Refusal::Range);
    }
    if len - count < offset {
        return Err(Refusal::Range);
    }
    Ok(())
}
