// The token at a place of a text: a letter, and the number right behind it where one belongs to it.
ghost use Rattle.std.specs.Prelude.{◌≡◌, true, ◌+◌, ◌*◌, ◌-◌, ◌≤◌, length};
ghost use Rattle.typed_text.specs.Text.{is_digit};
ghost use Rattle.typed_text.specs.Spelled.{takes_number, capped};
ghost use Rattle.text_tokens.specs.Reading.{digits_at, number_at, token_at};

#[derive(Clone, Copy, Debug, PartialEq, Eq)]
pub struct Token {
    pub letter: u8,
    // The number, 255 if it is larger: every limit is below that.
    pub value: u8,
    // The place behind the token.
    pub after: usize,
}

impl Token {
    // The token as one number.
    pub fn word(self) -> u16
        ensures { result ≡ self.letter * 256 + self.value }
    {
        u16::from(self.letter) * 256 + u16::from(self.value)
    }
}

#[derive(Clone, Copy, Debug, PartialEq, Eq)]
struct Number {
    value: u8,
    after: usize,
}

// Whether a number belongs to the letter.
fn takes_number(letter: u8) -> bool
    ensures { result ≡ takes_number letter }
{
    matches!(letter, b'p' | b'n' | b'<' | b'/' | b'@' | b'=' | b'#')
}

// A number with one digit more.
fn grown(value: u8, digit: u8) -> u8
    requires { is_digit digit ≡ true }
    ensures { result ≡ capped (value * 10 + (digit - 48)) }
{
    value.saturating_mul(10).saturating_add(digit - b'0')
}

// The digits that stand at a place, all of them.
fn digits(text: &[u8], start: usize) -> Number
    requires { start ≤ length text.now }
    ensures { result ≡ digits_at text.now start }
{
    let mut value = 0;
    for after in start..text.len() {
        if !text[after].is_ascii_digit() {
            return Number { value, after };
        }
        value = grown(value, text[after]);
    }
    Number {
        value,
        after: text.len(),
    }
}

// The number that stands at a place: "Numbers have no leading zeros", so `0` stands alone.
fn number_at(text: &[u8], at: usize) -> Number
    requires { at ≤ length text.now }
    ensures { result ≡ number_at text.now at }
{
    if text.get(at) == Some(&b'0') {
        Number {
            value: 0,
            after: at + 1,
        }
    } else {
        digits(text, at)
    }
}

// The token that begins at a place, whatever stands there.
pub fn token_at(text: &[u8], at: usize) -> Option<Token>
    ensures { result ≡ token_at text.now at }
{
    let letter = *text.get(at)?;
    if !takes_number(letter) {
        return Some(Token {
            letter,
            value: 0,
            after: at + 1,
        });
    }
    let number = number_at(text, at + 1);
    Some(Token {
        letter,
        value: number.value,
        after: number.after,
    })
}
