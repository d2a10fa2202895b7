// Whether words are a record; marks and points as words.
// Assumes nothing.

#![tactic(auto)]

ghost use Rattle.std.specs.Prelude.{◌≡◌, ◌<◌, ◌++◌, length, take};
ghost use Rattle.lists.specs.Lists.{tabulate, piece};
ghost use Rattle.record_words.specs.Words.{bits, from_bytes, is_record};

// Whether the words are a record's.
pub fn is_record(words: &[u64]) -> bool
    ensures { result ≡ is_record words.now }
{
    if words.len() != 12 {
        return false;
    }
    if 1 < words[5] {
        return false;
    }
    words[7] < 4294967296
}

// The marks by the bits of a word, the lowest first.
pub fn fill_marks(word: u64, marks: &mut [bool])
    ensures { marks.new ≡ bits (length marks.old) word }
{
    let mut rest = word;
    for mark in marks.iter_mut() {
        *mark = rest % 2 == 1;
        rest /= 2;
    }
}

// The words of points, from the eighth on.
pub fn put_points(points: &[u8], words: &mut [u64])
    requires { (length points.now ≡ 32) × (length words.old ≡ 12) }
    ensures { words.new ≡ take 8 words.old ++ tabulate 4 (λ q. from_bytes (piece 8 q points.now)) }
{
    let row = row_sums::row_at(points, 0);
    words[8] = row.a;
    words[9] = row.b;
    words[10] = row.c;
    words[11] = row.d;
}
