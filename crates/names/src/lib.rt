// Sets of names, and the set of the names that a pattern uses.
#![tactic(auto)]

ghost use Rattle.std.specs.Prelude.{◌≡◌, ◌≤◌, ◌<◌, MatchOption};
ghost use Rattle.pattern.specs.Checks.Finding.{found};
ghost use Rattle.pattern.specs.File.Types.{max_name};
ghost use Rattle.pattern.specs.File.Reading.{reading_of};
ghost use Rattle.pattern.specs.Meaning.Names.{uses_name};
ghost use Rattle.names.specs.Set.{has, SetOf, lowest_of, no_name, insert, minus};

use nodeset::NodeSet;
use pattern::entry::Entry;
use pattern::names::bears_name;

// A set of names, in two halves: those below NodeSet::WIDTH as they are, the others less NodeSet::WIDTH.
// One type for sets of any size would be no plainer than the two: over an array of words, each operation
// of a node set, which has one word, would be a loop.
#[derive(Clone, Copy, PartialEq, Eq)]
pub struct NameSet {
    low: NodeSet,
    high: NodeSet,
}

impl NameSet {
    #[tactic(auto, unfolding(crate::specs::Set::no_name))]
    pub fn empty() -> NameSet
        ensures { result ≡ no_name }
    {
        NameSet {
            low: NodeSet::empty(),
            high: NodeSet::empty(),
        }
    }

    #[tactic(auto, using(crate::specs::Set::has_low, crate::specs::Set::has_high, crate::specs::Set::has_beyond))]
    pub fn has(self, name: u8) -> bool
        ensures { result ≡ has self name }
    {
        if name < NodeSet::WIDTH {
            return self.low.has(name);
        }
        let above = name - NodeSet::WIDTH;
        above < NodeSet::WIDTH && self.high.has(above)
    }

    #[tactic(auto, unfolding(crate::specs::Set::insert))]
    pub fn insert(self, name: u8) -> NameSet
        requires { name ≤ max_name }
        ensures { result ≡ insert self name }
    {
        if name < NodeSet::WIDTH {
            NameSet {
                low: self.low.insert(name),
                ..self
            }
        } else {
            NameSet {
                high: self.high.insert(name - NodeSet::WIDTH),
                ..self
            }
        }
    }

    #[tactic(auto, unfolding(crate::specs::Set::minus))]
    pub fn minus(self, other: NameSet) -> NameSet
        ensures { result ≡ minus self other }
    {
        NameSet {
            low: self.low.minus(other.low),
            high: self.high.minus(other.high),
        }
    }

    // The lowest name.
    #[tactic(auto, using(crate::specs::Set::lowest_low, crate::specs::Set::lowest_high, nodeset::specs::Members::lowest_member, nodeset::specs::Members::empty_lowest))]
    pub fn lowest(self) -> Option<u8>
        ensures { MatchOption result (max_name < lowest_of self) (λ i. (i ≤ max_name) × (i ≡ lowest_of self)) }
    {
        match self.low.lowest() {
            Some(name) => Some(name),
            None => Some(NodeSet::WIDTH + self.high.lowest()?),
        }
    }
}

// The numbers of a set, one for each half.
impl From<NameSet> for [u64; 2] {
    ghost use Rattle.names.specs.Set.{numbers_of};

    ghost from_gives = { λ s ns. ns ≡ numbers_of s };

    #[tactic(auto, unfolding(crate::specs::Set::numbers_of))]
    fn from(names: NameSet) -> [u64; 2] {
        [names.low.into(), names.high.into()]
    }
}

// The set of two numbers: that of the numbers of a set is the set.
impl From<[u64; 2]> for NameSet {
    ghost use Rattle.names.specs.Set.{names_of};

    ghost from_gives = { λ ns s. s ≡ names_of ns };

    #[tactic(auto, unfolding(crate::specs::Set::names_of))]
    fn from(numbers: [u64; 2]) -> NameSet {
        let [low, high] = numbers;
        NameSet {
            low: low.into(),
            high: high.into(),
        }
    }
}

// The names that a pattern that was read, of n entries, uses, whether the root reaches their entries or
// not.
pub fn used_names(p: &[u8], n: u8) -> NameSet
    requires { reading_of p.now ≡ found n }
    ensures { SetOf (uses_name p.now) result }
{
    let mut names = NameSet::empty();
    for k in 0..n {
        let e = Entry::at(p, k);
        if bears_name(e.kind) {
            names = names.insert(e.x);
        }
    }
    names
}
