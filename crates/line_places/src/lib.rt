//! A line of a number at a place of a lent slice, of any name. It is told whether the line stands there, and the place behind it; a line that does not
//! stand there leaves the place behind the whole text, where no line stands.

#![tactic(auto)]

ghost use Rattle.std.specs.Prelude.{◌≡◌};
ghost use Rattle.line_places.specs.Steps.{line_at};

use number_lines::Read;
use text_in::Told;

// A number above 4,294,967,295 is held as this.
const MOST: usize = 4294967296;

// The line of a number at a place, by the bytes before the number.
pub fn line_at(text: &[u8], at: usize, name: &[u8]) -> Told
    ensures { result ≡ line_at text.now at name.now }
{
    let mut line = number_lines::start();
    for i in at..text.len() {
        match number_lines::feed(line, name, MOST, text[i]) {
            Read::More(next) => {
                line = next;
            }
            Read::Whole(v) => {
                return Told {
                    ok: true,
                    value: v,
                    next: i + 1,
                };
            }
            Read::Malformed => {
                return text_in::lost(text);
            }
        }
    }
    text_in::lost(text)
}
