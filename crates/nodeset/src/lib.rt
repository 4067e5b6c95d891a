// Sets of nodes. Only this crate knows how a set is made of bits.
#![tactic(auto)]

ghost use Rattle.std.specs.Prelude.{◌≡◌, true, false, MatchOption, ℕ, ◌+◌, ◌≤◌, ◌<◌, length};
ghost use Rattle.nodeset.specs.Set.{width, has, lowest_of, size_of, is_empty, empty_set, below, only, insert, insert_if, union, meet, minus, but_lowest};
ghost use Rattle.nodeset.specs.Filtered.{Filtered};
ghost use Rattle.nodeset.specs.Stored.{table_bytes, set_at, put};

// A set of the nodes below WIDTH: node u is in it where bit u is 1.
#[derive(Clone, Copy, PartialEq, Eq)]
pub struct NodeSet {
    bits: u64,
}

impl NodeSet {
    // The nodes that a set can have are the numbers below it.
    pub const WIDTH: u8 = 64;

    // The bytes of a stored set.
    pub const BYTES: usize = 8;

    #[tactic(auto, unfolding(crate::specs::Set::empty_set))]
    pub fn empty() -> NodeSet
        ensures { result ≡ empty_set }
    {
        NodeSet { bits: 0 }
    }

    // The nodes below n.
    #[tactic(auto, using(crate::proofs::Counted::shifted), unfolding(crate::specs::Set::below))]
    pub fn below(n: u8) -> NodeSet
        requires { n ≤ width }
        ensures { result ≡ below n }
    {
        if n < Self::WIDTH {
            NodeSet {
                bits: (1u64 << n) - 1,
            }
        } else {
            NodeSet { bits: u64::MAX }
        }
    }

    // The node u alone.
    #[tactic(auto, using(crate::proofs::Counted::shifted), unfolding(crate::specs::Set::only))]
    pub fn only(u: u8) -> NodeSet
        requires { u < width }
        ensures { result ≡ only u }
    {
        NodeSet { bits: 1u64 << u }
    }

    #[tactic(auto, using(crate::specs::Set::on_has_law))]
    pub fn has(self, u: u8) -> bool
        requires { u < width }
        ensures { result ≡ has self u }
    {
        (self.bits >> u) % 2 == 1
    }

    #[tactic(auto, using(crate::proofs::Counted::shifted), unfolding(crate::specs::Set::insert))]
    pub fn insert(self, u: u8) -> NodeSet
        requires { u < width }
        ensures { result ≡ insert self u }
    {
        NodeSet {
            bits: self.bits | (1u64 << u),
        }
    }

    // The set with node u inserted if it is wanted.
    pub fn insert_if(self, u: u8, wanted: bool) -> NodeSet
        requires { u < width }
        ensures { result ≡ insert_if wanted self u }
    {
        if wanted {
            return self.insert(u);
        }
        self
    }

    #[tactic(auto, unfolding(crate::specs::Set::union))]
    pub fn union(self, other: NodeSet) -> NodeSet
        ensures { result ≡ union self other }
    {
        NodeSet {
            bits: self.bits | other.bits,
        }
    }

    #[tactic(auto, unfolding(crate::specs::Set::meet))]
    pub fn meet(self, other: NodeSet) -> NodeSet
        ensures { result ≡ meet self other }
    {
        NodeSet {
            bits: self.bits & other.bits,
        }
    }

    #[tactic(auto, unfolding(crate::specs::Set::minus))]
    pub fn minus(self, other: NodeSet) -> NodeSet
        ensures { result ≡ minus self other }
    {
        NodeSet {
            bits: self.bits ^ (self.bits & other.bits),
        }
    }

    #[tactic(auto, using(crate::proofs::Counted::zero_empty))]
    pub fn is_empty(self) -> bool
        ensures { result ≡ is_empty self }
    {
        self.bits == 0
    }

    // The lowest node.
    #[tactic(auto, using(crate::proofs::Counted::zeros_least))]
    pub fn lowest(self) -> Option<u8>
        ensures { MatchOption result (is_empty self ≡ true) (λ u. (is_empty self ≡ false) × (u ≡ lowest_of self)) }
    {
        if self.is_empty() {
            return None;
        }
        Some(self.bits.trailing_zeros() as u8)
    }

    // The set without its lowest node.
    #[tactic(auto, using(crate::proofs::Counted::nonzero), unfolding(crate::specs::Set::but_lowest))]
    pub fn but_lowest(self) -> NodeSet
        requires { is_empty self ≡ false }
        ensures { result ≡ but_lowest self }
    {
        NodeSet {
            bits: self.bits & (self.bits - 1),
        }
    }

    // The nodes of the set that pass a test. Here and above, the members of a set are met by a `while let`: an
    // iterator would want a type of its own and the law that it ends, to save a line in each of three loops.
    pub fn filter<P: Fn(u8) -> bool>(self, test: P) -> NodeSet
        requires { (u : ℕ) → has self u ≡ true → P.pre test u }
        ensures { Filtered (P.post test) self result }
    {
        let mut rest = self;
        let mut kept = NodeSet::empty();
        while let Some(u) = rest.lowest() {
            kept = kept.insert_if(u, test(u));
            rest = rest.but_lowest();
        }
        kept
    }

    // The nodes below n that pass a test. As a filter of the set of the nodes below n it takes longer: a counter
    // needn't find the next member.
    pub fn filter_below<P: Fn(u8) -> bool>(n: u8, test: P) -> NodeSet
        requires n_le_width { n ≤ width }
        requires callable { (u : ℕ) → u < n → P.pre test u }
        ensures { Filtered (P.post test) (below n) result }
    {
        let mut found = NodeSet::empty();
        for u in 0..n {
            found = found.insert_if(u, test(u));
        }
        found
    }

    #[tactic(auto, using(crate::proofs::Counted::ones_size))]
    pub fn count(self) -> u8
        ensures { result ≡ size_of self }
    {
        self.bits.count_ones() as u8
    }

    // Set i of a table.
    #[tactic(auto, unfolding(crate::specs::Stored::set_at))]
    pub fn load(table: &[u8], i: usize) -> NodeSet
        requires { table_bytes (i + 1) ≤ length table.now }
        ensures { result ≡ set_at table.now i }
    {
        NodeSet {
            bits: wire::word64(table, Self::BYTES * i),
        }
    }

    // Set i of a table becomes this one.
    #[tactic(auto, unfolding(crate::specs::Stored::put))]
    pub fn store(self, table: &mut [u8], i: usize)
        requires { table_bytes (i + 1) ≤ length table.old }
        ensures { table.new ≡ put table.old i self }
    {
        wire::put_block(table, i, self.bits.to_le_bytes());
    }
}

// The number of a set.
impl From<NodeSet> for u64 {
    ghost use Rattle.nodeset.specs.Set.{number_of};

    ghost from_gives = { λ s n. n ≡ number_of s };

    #[tactic(auto, unfolding(crate::specs::Set::number_of))]
    fn from(set: NodeSet) -> u64 {
        set.bits
    }
}

// The set of a number: that of the number of a set is the set.
impl From<u64> for NodeSet {
    ghost use Rattle.nodeset.specs.Set.{set_of};

    ghost from_gives = { λ n s. s ≡ set_of n };

    #[tactic(auto, unfolding(crate::specs::Set::set_of))]
    fn from(number: u64) -> NodeSet {
        NodeSet { bits: number }
    }
}
