//! What the text reader tells, in words: the head of a text in six words, its points in 32 bytes, and the answer in one word.

#![tactic(auto)]

ghost use Rattle.std.specs.Prelude.{◌≡◌, ◌<◌, eqb, length};
ghost use Rattle.lists.specs.Tests.{pick};
ghost use Rattle.sizes.specs.Refusals.{said};
ghost use Rattle.answer_word.specs.Answers.{word_of};
ghost use Rattle.text_words.specs.Words.{head_of};

use board_read_text::TextRead;

// Puts what the text told where the reader answered no refusal, and gives the word of its answer.
pub fn tell(read: TextRead, head: &mut [u64], points: &mut [u8]) -> u64
    requires { (length head.old ≡ 6) × (length points.old ≡ 32) × ((said read.answer).reported < 72057594037927936) }
    ensures { (result ≡ word_of (said read.answer)) × (head.new ≡ pick (eqb (said read.answer).refusal 0) (head_of read.sizes read.node read.length) head.old) × (points.new ≡ pick (eqb (said read.answer).refusal 0) read.points points.old) }
{
    let answer = read.answer;
    let word = answer_word::word_of(answer);
    if let Ok(_) = answer {
        let xs = read.points;
        let row = row_sums::row_at(&xs, 0);
        row_sums::put_row(row, points);
        head[0] = read.sizes.n as u64;
        head[1] = read.sizes.k as u64;
        head[2] = read.sizes.d as u64;
        head[3] = read.sizes.r as u64;
        head[4] = read.node as u64;
        head[5] = read.length as u64;
    }
    word
}
