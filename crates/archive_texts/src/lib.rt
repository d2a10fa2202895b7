//! The archive's calls of texts, each by the words and bytes that it is lent: `zebrankai` has them under their C names.
//! Each meets its definition in the crates `archive_spec`, `text_spec` and `prefix_spec`: the answer as one word, and every word and byte that it was lent.

#![tactic(auto)]

ghost use Rattle.std.specs.Prelude.{◌≡◌, Ok};
ghost use Rattle.sizes.specs.Refusals.{said};
ghost use Rattle.text_spec.specs.Calls.{gather_call};
ghost use Rattle.prefix_spec.specs.Prefix.{longest};
ghost use Rattle.answer_word.specs.Answers.{word_of};
ghost use Rattle.archive_spec.specs.Texts.{zbk_read_text};

// The word of SIZE, for a head or points of another length than theirs.
const SIZE: u64 = 1;

// What a share text tells: sizes, board number and length to six words, points to 32 bytes, and the share to the first bytes of the output. Reports
// the number of bytes written. Another text than `archive_boards::share_text` writes is TEXT.
pub fn read_text(text: &[u8], head: &mut [u64], points: &mut [u8], out: &mut [u8]) -> u64
    ensures { record { answer = result; head = head.new; points = points.new; output = out.new } ≡ zbk_read_text text.now head.old points.old out.old }
{
    if head.len() != 6 {
        return SIZE;
    }
    if points.len() != 32 {
        return SIZE;
    }
    let read = board_read_text::read_text(text, out);
    text_words::tell(read, head, points)
}

// The file of k share texts, one after another in one slice. Reports the number of bytes written, which is the file's length.
pub fn gather(text: &[u8], out: &mut [u8]) -> u64
    ensures { (result ≡ word_of (gather_call text.now out.old).answer) × (out.new ≡ (gather_call text.now out.old).output) }
{
    answer_word::word_of(board_gather::gather(text, out))
}

// How many bytes of a text also begin some text that `archive_boards::share_text` writes, at their most. Reports that number, and refuses nothing.
pub fn text_prefix(text: &[u8]) -> u64
    ensures { result ≡ word_of (said (Ok (longest text.now))) }
{
    answer_word::word_of(Ok(text_prefix::prefix(text)))
}
