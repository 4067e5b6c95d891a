// The checks of the edge records: in each of them document 01's refusal 14, and then, where edges must
// rise, document 02's 28.
ghost use Rattle.std.specs.Prelude.{◌≡◌, ◌+◌, ◌≤◌, ◌<◌, length};
ghost use Rattle.pattern.specs.Checks.Range.{each_below};
ghost use Rattle.model_records.specs.Layout.{edge_count, edge_record, length_of};
ghost use Rattle.model_records.specs.Rising.{rank_of, least_behind};
ghost use Rattle.model_records.specs.Checks.{edge_check, record_check};
ghost use Rattle.model_file.specs.Enums.{check_of};

use crate::refusal::ModelRefusal;
use model_records::{Edge, Order, edge_count, node_count};
use pattern::types::Axis;

// Refusal 14 of edge record i.
fn check_edge(d: &[u8], i: u16) -> Result<(), ModelRefusal>
    requires { edge_record d.now i + 3 ≤ length d.now }
    ensures { check_of result ≡ edge_check d.now i }
{
    let n = node_count(d);
    let edge = Edge::at(d, i);
    if n <= edge.from || Axis::try_from(edge.axis).is_err() || n <= edge.to {
        return Err(ModelRefusal::Edge(i));
    }
    Ok(())
}

// An edge as one number, which is lower for the one of two edges that comes before the other. It is compared by
// this number and not by its derived order, which takes a branch for each field.
fn edge_rank(edge: Edge) -> u32
    ensures { result ≡ rank_of edge }
{
    (u32::from(edge.from) * 256 + u32::from(edge.axis)) * 256 + u32::from(edge.to)
}

// The least number that the record behind one of this number may have: any, or where edges must rise
// one higher.
fn least_behind(order: Order, rank: u32) -> u32
    requires { rank < 16777216 }
    ensures { result ≡ least_behind order rank }
{
    match order {
        Order::Any => 0,
        Order::Rising => rank + 1,
    }
}

// Refusals 14 and, where edges must rise, 28 of the edge records, in their order.
pub fn check_edges(d: &[u8], order: Order) -> Result<(), ModelRefusal>
    requires { length d.now ≡ length_of d.now }
    ensures { check_of result ≡ each_below (edge_count d.now) (record_check order d.now) }
{
    let mut least = 0;
    for i in 0..edge_count(d) {
        check_edge(d, i)?;
        let rank = edge_rank(Edge::at(d, i));
        if rank < least {
            return Err(ModelRefusal::Order(i));
        }
        least = least_behind(order, rank);
    }
    Ok(())
}
