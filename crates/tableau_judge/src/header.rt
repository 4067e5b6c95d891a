// The first 8 bytes of a tableau file: document 01's refusals 15 to 18, in its order.
ghost use Rattle.std.specs.Prelude.{◌≡◌, List, ℕ, ◌≤◌, length};
ghost use Rattle.pattern.specs.Meaning.Names.{uses_name};
ghost use Rattle.names.specs.Set.{SetOf};
ghost use Rattle.tableau.specs.Judging.{count_wrong};
ghost use Rattle.tableau_judge.specs.Headers.{header_of, header_finding};

use names::NameSet;
use pattern::types::Name;
use tableau::finding::HeaderRefusal;

const MAX_STEPS: u16 = 4096;

// The bytes before the steps.
pub const HEADER: usize = 8;

// The start name, and the number of the steps.
#[derive(Clone, Copy)]
pub struct Header {
    pub start: Name,
    pub steps: u16,
}

// Whether the number of steps is out of range or the length isn't the one that it asks for.
fn count_wrong(t: &[u8]) -> bool
    requires { 8 ≤ length t.now }
    ensures { result ≡ count_wrong t.now }
{
    let s = wire::word(t, 6);
    s == 0 || MAX_STEPS < s || t.len() != HEADER + 6 * (s as usize)
}

// Reads the header of a tableau for a pattern that uses these names.
#[tactic(auto, unfolding(crate::specs::Headers::header_of, tableau::specs::Judging::header_check))]
pub fn read_header(used: NameSet, t: &[u8]) -> Result<Header, HeaderRefusal>
    ensures { (bs : List ℕ) → SetOf (uses_name bs) used → header_finding result ≡ header_of bs t.now }
{
    if t.len() < HEADER || !wire::begins(t, &tableau::MARK) {
        return Err(HeaderRefusal::Mark);
    }
    if wire::word(t, 3) != 1 {
        return Err(HeaderRefusal::Version);
    }
    if count_wrong(t) {
        return Err(HeaderRefusal::Count);
    }
    match Name::try_from(t[5]) {
        Ok(start) if !used.has(start.number) => Ok(Header {
            start,
            steps: wire::word(t, 6),
        }),
        _ => Err(HeaderRefusal::Start),
    }
}
