//! The store's record in twelve words, and whether words tell it and that of a repair beside it.

#![tactic(auto)]

ghost use Rattle.std.specs.Prelude.{◌≡◌, true, [], ◌∷◌, ◌≤◌, length, drop};
ghost use Rattle.lists.specs.Tests.{alls};
ghost use Rattle.lists.specs.Lists.{joined};
ghost use Rattle.record.specs.Records.{record_of};
ghost use Rattle.record_words.specs.Words.{from_bits, bytes, is_record, record_from, words_of};
ghost use Rattle.repair_words.specs.RepairWords.{is_repair};

use record::Kept;
use row_sums::Row;
use sizes::Sizes;

// The word that has the marks as its bits.
fn marks_word(marks: &[bool]) -> u64
    requires { length marks.now ≤ 32 }
    ensures { result ≡ from_bits marks.now }
{
    let mut word: u64 = 0;
    for i in (0..marks.len()).rev() {
        word *= 2;
        if marks[i] {
            word += 1;
        }
    }
    word
}

// The points that a record's words tell: eight in a word, the lowest byte first.
fn points_of(words: &[u64]) -> [u8; 32]
    requires { length words.now ≡ 12 }
    ensures { result ≡ joined (bytes 8) (drop 8 words.now) }
{
    let row = Row {
        a: words[8],
        b: words[9],
        c: words[10],
        d: words[11],
    };
    let mut points = [0u8; 32];
    row_sums::put_row(row, &mut points);
    points
}

// The record that words tell.
pub fn kept_of(words: &[u64]) -> Kept
    requires { is_record words.now ≡ true }
    ensures { record_of result ≡ record_from words.now }
{
    let mut marks = [false; 32];
    word_parts::fill_marks(words[7], &mut marks);
    let points = points_of(words);
    Kept {
        sizes: Sizes {
            n: words[0] as usize,
            k: words[1] as usize,
            d: words[2] as usize,
            r: words[3] as usize,
        },
        points: points,
        capacity: words[4] as usize,
        written: words[5] == 1,
        length: words[6] as usize,
        marks: marks,
    }
}

// The words that tell a record.
pub fn put_kept(kept: Kept, words: &mut [u64])
    requires { length words.old ≡ 12 }
    ensures { words.new ≡ words_of (record_of kept) }
{
    let marks = kept.marks;
    let points = kept.points;
    word_parts::put_points(&points, words);
    words[0] = kept.sizes.n as u64;
    words[1] = kept.sizes.k as u64;
    words[2] = kept.sizes.d as u64;
    words[3] = kept.sizes.r as u64;
    words[4] = kept.capacity as u64;
    words[5] = kept.written as u64;
    words[6] = kept.length as u64;
    words[7] = marks_word(&marks);
}

// Whether words tell both records.
pub fn are_records(words: &[u64], beside: &[u64]) -> bool
    ensures { result ≡ alls (is_record words.now ∷ is_repair beside.now ∷ []) }
{
    word_parts::is_record(words) && repair_parts::is_repair(beside)
}
