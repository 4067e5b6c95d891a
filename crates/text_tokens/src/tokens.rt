// The tokens of a text, one after the other, and refusal 31: the first number that is out of range.
ghost use Rattle.std.specs.Prelude.{◌≡◌, ◌≤◌, ◌<◌, length};
ghost use Rattle.wire.specs.Onto.{onto};
ghost use Rattle.pattern.specs.Checks.Finding.{unless};
ghost use Rattle.typed_text.specs.Tokens.{limit_of, range_check};
ghost use Rattle.typed_text.specs.Spelled.{byte_tokens, token_words};
ghost use Rattle.text_tokens.specs.Ranged.{first_beyond, ranged_of};

use crate::reader::TextReader;
use crate::token::Token;
use pattern::types::{Axis, Channel, Name, Property};

// The place of the first number out of range: its first digit.
#[derive(Clone, Copy, Debug, PartialEq, Eq)]
pub struct OutOfRange(pub u16);

// The largest number that may stand behind a letter: a letter's number is matched here and where it is taken
// (`text_cells`), by a table as the document has it.
fn limit(letter: u8) -> u8
    ensures { result ≡ limit_of letter }
{
    match letter {
        b'p' => Property::MAX,
        b'n' | b'@' => Name::MAX,
        b'<' | b'/' => Axis::MAX,
        b'=' | b'#' => Channel::MAX,
        _ => 0,
    }
}

// The first number out of range, if there is one, after a token at this place.
fn beyond_after(beyond: Option<OutOfRange>, token: Token, at: usize) -> Option<OutOfRange>
    requires { at < 1024 }
    ensures { result ≡ first_beyond beyond token.letter token.value at }
{
    if beyond.is_none() && limit(token.letter) < token.value {
        return Some(OutOfRange((at + 1) as u16));
    }
    beyond
}

// Reads all tokens of a text, and answers how many there are.
pub fn read_tokens(text: &[u8], tokens: &mut [u16; 1024]) -> Result<u16, OutOfRange>
    requires text_len_bound { length text.now ≤ 1024 }
    requires tokens_len { length tokens.old ≡ 1024 }
    ensures answer { ranged_of result ≡ unless (range_check (byte_tokens text.now)) (length (byte_tokens text.now)) }
    ensures words { tokens.new ≡ onto (token_words (byte_tokens text.now)) tokens.old }
{
    let mut at = 0;
    let mut n: usize = 0;
    let mut beyond = None;
    // No `for` over tokens: each is read from the place behind the one before it, which an iterator would hold
    // beside the text and the loop wants too.
    while let Some(token) = (TextReader { text, at }).next() {
        tokens[n] = token.word();
        beyond = beyond_after(beyond, token, at);
        n += 1;
        at = token.after;
    }
    match beyond {
        None => Ok(n as u16),
        Some(out_of_range) => Err(out_of_range),
    }
}
