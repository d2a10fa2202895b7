//! The archive's answer in one word.

#![tactic(auto)]

ghost use Rattle.std.specs.Prelude.{◌≡◌, ◌<◌};
ghost use Rattle.sizes.specs.Refusals.{said};
ghost use Rattle.answer_word.specs.Answers.{word_of};

use sizes::Refusal;

// The word of an answer that reports a number below 2^56.
pub fn word_of(answer: Result<usize, Refusal>) -> u64
    requires { (said answer).reported < 72057594037927936 }
    ensures { result ≡ word_of (said answer) }
{
    match answer {
        Ok(v) => 256 * (v as u64),
        Err(x) => x.number() as u64,
    }
}
