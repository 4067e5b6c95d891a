// What evaluation is asked about, and what it knows already.
ghost use Rattle.evaluation.specs.Standing.{Lent};

use slots::marks::Marks;

// A pattern that was read, in a data model of n nodes that the tables stand for.
#[derive(Clone, Copy)]
pub struct Judged<'a> {
    pub p: &'a [u8],
    pub table: &'a [u8],
    pub alike: &'a [u8],
    pub n: u8,
    pub ghost lent: { Lent p.now table.now alike.now n },
}

// What was learned of the entries: sets in the area, ends of paths in the rows, and the marks that say which
// and where. Tried and did not close: that the marks are right (`Learned`) as a ghost field, since it may have
// more than one proof.
#[derive(Clone, Copy)]
pub struct Known<'a> {
    pub area: &'a [u8],
    pub rows: &'a [u8],
    pub marks: &'a Marks,
}
