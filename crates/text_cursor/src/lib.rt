//! A reader over a lent text that hands on its place from line to line: a small struct with the text and a place, and thin functions over it. Each leaves the
//! work to the line reader of `text_in`, and is proved by hand; `number_from` and `pairs_from` take a plain slice, so that their callers are covered.

#![tactic(auto)]

ghost use Rattle.std.specs.Prelude.{◌≡◌};
ghost use Rattle.text_in.specs.Steps.{number_at, pairs_line_at};

use text_in::Told;

#[derive(Clone, Copy)]
pub struct Reader<'a> {
    pub text: &'a [u8],
    pub at: usize,
}

// A reader at a place of a text.
pub fn open<'a>(text: &'a [u8], at: usize) -> Reader<'a>
    ensures { (result.text ≡ text.entry) × (result.at ≡ at) }
{
    Reader { text, at }
}

// The line of a number where the reader stands.
pub fn number_line<'a>(r: Reader<'a>, which: u8) -> Told
    ensures { result ≡ number_at r.entry.text.now r.entry.at which }
{
    text_in::number_at(r.text, r.at, which)
}

// The line of so many pairs where the reader stands.
pub fn pairs_line<'a>(r: Reader<'a>, which: u8, count: usize) -> Told
    ensures { result ≡ pairs_line_at r.entry.text.now r.entry.at which count }
{
    text_in::pairs_line_at(r.text, r.at, which, count)
}

// The line of a number at a place of a text.
pub fn number_from(text: &[u8], at: usize, which: u8) -> Told
    ensures { result ≡ number_at text.now at which }
{
    number_line(open(text, at), which)
}

// The line of so many pairs at a place of a text.
pub fn pairs_from(text: &[u8], at: usize, which: u8, count: usize) -> Told
    ensures { result ≡ pairs_line_at text.now at which count }
{
    pairs_line(open(text, at), which, count)
}
