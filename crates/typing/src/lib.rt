// Typing a pattern, document 02's Job 7: a pattern file is written from a text.
#![tactic(auto)]

pub mod finding;

ghost use Rattle.std.specs.Prelude.{◌≡◌, [], ◌*◌, ◌≤◌, length, take};
ghost use contract.Monad.{fact};
ghost use Rattle.pattern.specs.Checks.Finding.{written, destination_after};
ghost use Rattle.typed_text.specs.Text.{NodeText, node};
ghost use Rattle.typing.specs.Typing.{file_within, text_within, finding_of, TypePromise, TypedEverywhere};
ghost use Rattle.typing.specs.Written.{bytes_within, TokensOf};

use finding::{TypeFinding, TypeRefusal};
use text_cells::{CELLS, TOKENS, build};
use text_entries::{ENTRY_BYTES, complete};
use text_tokens::grammar::check;
use text_tokens::tokens::read_tokens;

// The most bytes of a text.
const TEXT_BYTES: usize = TOKENS;

// Refusal 32 by the destination's length, or the file of n entries.
fn write_file(entries: &[u8], n: u8, out: &mut [u8]) -> TypeFinding
    requires { 4 * n ≤ length entries.now }
    ensures finding { finding_of result ≡ written (bytes_within n (take (4 * n) entries.now) (length out.old)) }
    ensures destination { out.new ≡ destination_after (bytes_within n (take (4 * n) entries.now) (length out.old)) out.old }
{
    let bytes = 4 * n as usize;
    if out.len() < 6 + bytes {
        return Err(TypeRefusal::Room);
    }
    wire::copy_at(out, 0, &[b'P', b'A', b'T', 1, 0, n]);
    wire::copy_at(out, 6, &entries[..bytes]);
    Ok((6 + bytes) as u16)
}

// The file of a text whose numbers are in range, of its first n tokens, or refusal 32.
fn write_tokens(tokens: &[u16; TOKENS], n: u16, out: &mut [u8]) -> TypeFinding
    requires tokens_len { (length tokens.now ≡ 1024) × (n ≤ 1024) }
    requires tokens_of { (t : NodeText) × TokensOf t (take n tokens.now) }
    ensures finding { (t : NodeText) → TokensOf t (take n tokens.now) → finding_of result ≡ written (file_within t (length out.old)) }
    ensures destination { (t : NodeText) → TokensOf t (take n tokens.now) → out.new ≡ destination_after (file_within t (length out.old)) out.old }
{
    let mut cells = [0u16; CELLS];
    let count = build(tokens, n, &mut cells);
    let mut entries = [0u8; ENTRY_BYTES];
    let k = complete(&cells, count, &mut entries)?;
    write_file(&entries, k, out)
}

// The file of a text of the grammar, or refusals 31 and 32.
fn write_text(text: &[u8], out: &mut [u8]) -> TypeFinding
    requires text_len_bound { length text.now ≤ 1024 }
    requires t_value { (t : NodeText) × (node t [] ≡ text.now) }
    ensures finding { (t : NodeText) → node t [] ≡ text.now → finding_of result ≡ written (text_within t (length out.old)) }
    ensures destination { (t : NodeText) → node t [] ≡ text.now → out.new ≡ destination_after (text_within t (length out.old)) out.old }
{
    // Fixed memory, on the stack, here and below: the unit has no heap.
    let mut tokens = [0u16; TOKENS];
    let n = read_tokens(text, &mut tokens)?;
    write_tokens(&tokens, n, out)
}

// The file of any bytes, or the first refusal that applies.
fn write_pattern(text: &[u8], out: &mut [u8]) -> TypeFinding
    ensures { TypePromise text.now out.old (finding_of result) out.new }
{
    if TEXT_BYTES < text.len() {
        return Err(TypeRefusal::Grammar(0));
    }
    check(text)?;
    write_text(text, out)
}

// Types a pattern: any bytes as text and as destination give the file's length, and the file stands at
// the front of the destination; or the first refusal that applies, and the destination stays as it was.
// At every node of every data model, finite or not, the file's root holds exactly where the text does.
pub fn type_pattern(text: &[u8], out: &mut [u8]) -> TypeFinding
    ensures promise { TypePromise text.now out.old (finding_of result) out.new }
    ensures* everywhere { fact 𝓤 (TypedEverywhere text.now (finding_of result) out.new) ∗ ⊤ₛ }
{
    write_pattern(text, out)
}
