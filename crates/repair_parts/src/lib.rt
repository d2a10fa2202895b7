// Whether words are a repair's record; bytes of words, and words of bytes.
// Assumes nothing.

#![tactic(auto)]

ghost use Rattle.std.specs.Prelude.{◌≡◌, ◌*◌, ◌<◌, length};
ghost use Rattle.lists.specs.Lists.{joined};
ghost use Rattle.record_words.specs.Words.{bytes, from_bytes};
ghost use Rattle.repair_words.specs.RepairWords.{pack, is_repair};

// Whether the words are a repair's record.
pub fn is_repair(words: &[u64]) -> bool
    ensures { result ≡ is_repair words.now }
{
    if words.len() != 71 {
        return false;
    }
    words[0] < 2
}

// The eight bytes of a word, the lowest first.
fn put_word(word: u64, out: &mut [u8])
    requires { length out.old ≡ 8 }
    ensures { out.new ≡ bytes 8 word }
{
    let mut rest = word;
    for b in out.iter_mut() {
        *b = (rest % 256) as u8;
        rest /= 256;
    }
}

// The word of eight bytes, the lowest first.
fn word_of(eight: &[u8]) -> u64
    requires { length eight.now ≡ 8 }
    ensures { result ≡ from_bytes eight.now }
{
    let mut word: u64 = 0;
    for i in (0..eight.len()).rev() {
        word = word * 256 + u64::from(eight[i]);
    }
    word
}

// The bytes of words, one word after another.
pub fn fill_bytes(words: &[u64], out: &mut [u8])
    requires { length out.old ≡ length words.now * 8 }
    ensures { out.new ≡ joined (bytes 8) words.now }
{
    for (q, word) in words.iter().enumerate() {
        let a = q * 8;
        let e = a + 8;
        put_word(*word, &mut out[a..e]);
    }
}

// The words of bytes, eight of them in each.
pub fn put_packed(packed: &[u8], words: &mut [u64])
    requires { length packed.now ≡ length words.old * 8 }
    ensures { words.new ≡ pack (length words.old) packed.now }
{
    for (q, word) in words.iter_mut().enumerate() {
        let a = q * 8;
        let e = a + 8;
        *word = word_of(&packed[a..e]);
    }
}
