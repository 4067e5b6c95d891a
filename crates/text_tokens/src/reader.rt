// A reader of a text: the text and the place of the next token.
ghost use Rattle.std.specs.Prelude.{◌≡◌};
ghost use Rattle.text_tokens.specs.Reading.{token_at};

use crate::token::{Token, token_at};

#[derive(Clone, Copy)]
pub struct TextReader<'a> {
    pub text: &'a [u8],
    pub at: usize,
}

impl TextReader<'_> {
    // The token that the reader stands at.
    pub fn next(self) -> Option<Token>
        ensures { result ≡ token_at self.entry.text.now self.entry.at }
    {
        token_at(self.text, self.at)
    }
}
