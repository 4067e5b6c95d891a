// Refusal 30: whether a text is in the grammar, and otherwise the first place that no text of the grammar
// can have so. What is still wanted for the text to be whole lies on a stack, one byte a want, which grows
// down from the end of an array: a byte takes one want and puts at most five in its place.
ghost use Rattle.std.specs.Prelude.{◌≡◌, ◌≤◌, length};
ghost use Rattle.std.specs.List.{list_all};
ghost use Rattle.typed_text.specs.Machine.{place_of};
ghost use Rattle.text_tokens.specs.Stack.{new_wants, taken, passable, grammar_of};

use crate::wants::Wants;

// The first place that no text of the grammar can have so.
#[derive(Clone, Copy, Debug, PartialEq, Eq)]
pub struct Fault(pub u16);

// What a byte of the stack wants: a text, a byte of two, or else the byte that it is. An enum with a variant
// for that byte would take twice the fixed memory, on a stack whose bytes riser.h tells.
const NODE: u8 = 1;

const ROW: u8 = 2;

const NUMBER: u8 = 3;

const DIGITS: u8 = 4;

const AND_OR: u8 = 5;

const SAME_DIFFER: u8 = 6;

// Room for the first want and, since a byte leaves at most four more than there were, for 1,024 bytes.
const STACK: usize = 4097;

// What is wanted behind a byte where this was wanted; behind a number's first `0` nothing.
fn behind(want: u8, byte: u8) -> Option<Wants>
    ensures { new_wants result ≡ taken want byte }
{
    let (first, bytes) = match want {
        NODE => match byte {
            b'p' | b'n' => (4, [0, 0, 0, 0, NUMBER]),
            b'!' => (4, [0, 0, 0, 0, NODE]),
            b'(' => (1, [0, NODE, AND_OR, NODE, b')']),
            b'<' => (2, [0, 0, NUMBER, b'>', NODE]),
            b'[' => (0, [ROW, SAME_DIFFER, NUMBER, ROW, b']']),
            _ => return None,
        },
        ROW => match byte {
            b'/' | b'@' => (3, [0, 0, 0, NUMBER, ROW]),
            b'?' => (3, [0, 0, 0, NODE, ROW]),
            b'{' => (0, [ROW, b'|', ROW, b'}', ROW]),
            _ => return None,
        },
        NUMBER => match byte {
            b'0' => (5, [0; 5]),
            b'1'..=b'9' => (4, [0, 0, 0, 0, DIGITS]),
            _ => return None,
        },
        DIGITS if byte.is_ascii_digit() => (4, [0, 0, 0, 0, DIGITS]),
        AND_OR if matches!(byte, b'&' | b'|') => (5, [0; 5]),
        SAME_DIFFER if matches!(byte, b'=' | b'#') => (5, [0; 5]),
        NODE..=SAME_DIFFER => return None,
        _ if byte == want => (5, [0; 5]),
        _ => return None,
    };
    Some(Wants { first, bytes })
}

// Whether a want may be passed over.
fn may_pass(want: u8) -> bool
    ensures { result ≡ passable want }
{
    matches!(want, ROW | DIGITS)
}

// Whether the text may end where these bytes of the stack are left.
fn may_end(stack: &[u8]) -> bool
    ensures { result ≡ list_all passable stack.now }
{
    stack.iter().all(|want| may_pass(*want))
}

// Whether the text is in the grammar.
pub fn check(text: &[u8]) -> Result<(), Fault>
    requires { length text.now ≤ 1024 }
    ensures { grammar_of result ≡ place_of text.now }
{
    let mut stack = [0u8; STACK];
    let mut at = STACK - 1;
    stack[at] = NODE;
    let mut i = 0;
    // A turn takes a byte or passes over a want. Tried: a `for` over the bytes, with a loop over wants inside,
    // takes up to twice as long.
    while i < text.len() {
        if at == STACK {
            return Err(Fault(i as u16));
        }
        let want = stack[at];
        match behind(want, text[i]) {
            Some(new) => {
                i += 1;
                // A digit behind a digit leaves the stack as it is.
                if want != DIGITS {
                    at -= 4;
                    wire::copy_at(&mut stack, at, &new.bytes);
                    at += new.first;
                }
            }
            None if may_pass(want) => at += 1,
            None => return Err(Fault(i as u16)),
        }
    }
    if may_end(&stack[at..]) {
        Ok(())
    } else {
        Err(Fault(text.len() as u16))
    }
}
