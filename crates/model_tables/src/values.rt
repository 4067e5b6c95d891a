// The table of the values of a model for a pattern: the channels on which it compares.
ghost use Rattle.std.specs.Prelude.{◌≡◌, true, false, ◌&&◌, not, ℕ, ◌≤◌, ◌<◌, length};
ghost use Rattle.nodeset.specs.Set.{has, is_empty};
ghost use Rattle.nodeset.specs.Stored.{table_bytes, set_at};
ghost use Rattle.nodeset.specs.Members.{HasExactly};
ghost use Rattle.pattern.specs.Checks.Finding.{found};
ghost use Rattle.pattern.specs.File.Types.{max_channel};
ghost use Rattle.pattern.specs.File.Reading.{count_of, reading_of};
ghost use Rattle.relations.specs.Tables.{alike_row, alike_rows, Alike};
ghost use Rattle.relations.specs.Filled.{Filled};
ghost use Rattle.model_records.specs.Layout.{node_count, value_on};
ghost use Rattle.model_records.specs.Contents.{model_from};
ghost use Rattle.model_records.specs.Valid.{ValidModel};
ghost use Rattle.model_tables.specs.Entries.{Grown};
ghost use Rattle.model_tables.specs.Buckets.{bucket_of, InBuckets};
ghost use Rattle.model_tables.specs.Values.{AlikeTo, AlikeBelow, ChannelMade, MadeWhole, is_comparison};

use model_records::{node_count, value_on};
use nodeset::NodeSet;
use pattern::entry::Entry;
use pattern::table::Kind;
use relations::fill::fill;
use relations::rows::{ALIKE_BYTES, row_of};

// The buckets of the values of a channel, and their bytes.
const BUCKETS: u16 = 61;

const BUCKETS_BYTES: usize = NodeSet::BYTES * (BUCKETS as usize);

// The values of a channel in buckets, so that a node is compared with few others: nodes of one value are
// in one bucket.
fn bucket_of(value: u16) -> u8
    ensures { result ≡ bucket_of value }
{
    (value % BUCKETS) as u8
}

// The bucket of each node on channel e gets the node; they are empty before.
fn fill_buckets(d: &[u8], e: u8, buckets: &mut [u8; BUCKETS_BYTES])
    requires valid_model { ValidModel d.now }
    requires e_le_max_channel { e ≤ max_channel }
    requires by_index { (i u : ℕ) → has (set_at buckets.old i) u ≡ false }
    ensures { InBuckets d.now e (node_count d.now) buckets.new }
{
    for u in 0..node_count(d) {
        let i = bucket_of(value_on(d, e, u)) as usize;
        NodeSet::load(buckets, i).insert(u).store(buckets, i);
    }
}

// The nodes whose value on channel e is that of node u, which are in its bucket: those of an earlier
// node of the same value, if the lowest of the bucket is one, as its row is made.
fn alike_row(d: &[u8], e: u8, u: u8, buckets: &[u8; BUCKETS_BYTES], alike: &[u8]) -> NodeSet
    requires valid_model { ValidModel d.now }
    requires e_le_max_channel { (e ≤ max_channel) × (u < node_count d.now) }
    requires in_buckets { InBuckets d.now e (node_count d.now) buckets.now }
    requires alike_rows_in_bounds { (table_bytes alike_rows ≤ length alike.now) × AlikeBelow d.now e u alike.now }
    ensures { HasExactly (AlikeTo d.now e u) result }
{
    let value = value_on(d, e, u);
    let near = NodeSet::load(buckets, bucket_of(value) as usize);
    if let Some(v) = near.lowest() {
        if v < u && value_on(d, e, v) == value {
            return NodeSet::load(alike, row_of(e, v));
        }
    }
    near.filter(|v| value == value_on(d, e, v))
}

// The row of each node on channel e gets the nodes of the same value.
fn fill_channel(d: &[u8], e: u8, alike: &mut [u8; ALIKE_BYTES])
    requires valid_model { ValidModel d.now }
    requires e_le_max_channel { e ≤ max_channel }
    ensures { Filled (alike_row e) (AlikeTo d.now e) (node_count d.now) alike.old alike.new }
{
    let mut buckets = [0u8; BUCKETS_BYTES];
    fill_buckets(d, e, &mut buckets);
    fill(
        alike,
        row_of(e, 0),
        node_count(d),
        |alike, u| alike_row(d, e, u, &buckets, alike),
    );
}

fn is_comparison(kind: Kind) -> bool
    ensures { result ≡ is_comparison kind }
{
    matches!(kind, Kind::Same | Kind::Differ)
}

// Whether the rows of channel e are made: node 0 has its own value.
fn is_made(alike: &[u8; ALIKE_BYTES], e: u8) -> bool
    requires e_le_max_channel { e ≤ max_channel }
    ensures { result ≡ not (is_empty (set_at alike.now (alike_row e 0))) }
{
    !NodeSet::load(alike, row_of(e, 0)).is_empty()
}

// The rows of the channel of an entry, if it compares and they aren't made, get the nodes of the same
// value.
fn fill_compared(d: &[u8], e: Entry, alike: &mut [u8; ALIKE_BYTES])
    requires valid_model { ValidModel d.now }
    requires x_le_max_channel { is_comparison e.kind ≡ true → e.x ≤ max_channel }
    requires whole { MadeWhole d.now alike.old }
    ensures grown { Grown (ChannelMade d.now) (is_comparison e.kind) e.x alike.old alike.new }
    ensures whole { MadeWhole d.now alike.new }
{
    if is_comparison(e.kind) && !is_made(alike, e.x) {
        fill_channel(d, e.x, alike);
    }
}

// The table of the values of the model that a file gives, on the channels that the pattern has; it is
// empty before. Its loop is that of the properties: one with a closure that writes would know nothing of
// what the closure wrote.
pub fn tabulate_values(p: &[u8], d: &[u8], alike: &mut [u8; ALIKE_BYTES])
    requires p_value { reading_of p.now ≡ found (count_of p.now) }
    requires valid_model { ValidModel d.now }
    requires by_index { (i u : ℕ) → has (set_at alike.old i) u ≡ false }
    ensures { Alike (model_from d.now) p.now alike.new }
{
    for k in 0..p[5] {
        fill_compared(d, Entry::at(p, k), alike);
    }
}
