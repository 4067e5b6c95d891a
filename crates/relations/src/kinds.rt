// The kinds of entries as evaluation tells them apart: node entries, and path entries. They are matched where
// sets are made of them; as closures they would hide which sets an entry needs.
ghost use Rattle.std.specs.Prelude.{◌≡◌};
ghost use Rattle.relations.specs.Kinds.{node_kind_of, path_kind_of};

use pattern::entry::Entry;
use pattern::table::Kind;
use pattern::types::Comparison;

// The node kinds; same and differ are one, with their comparison.
#[derive(Clone, Copy)]
pub enum NodeKind {
    Property,
    Name,
    Not,
    Both,
    Either,
    After,
    Compare(Comparison),
}

#[derive(Clone, Copy)]
pub enum PathKind {
    Step,
    Jump,
    Test,
    Fork,
}

// The kind of an entry as a node.
pub fn node_kind(e: Entry) -> Option<NodeKind>
    ensures { result ≡ node_kind_of e.kind }
{
    match e.kind {
        Kind::Property => Some(NodeKind::Property),
        Kind::Name => Some(NodeKind::Name),
        Kind::Not => Some(NodeKind::Not),
        Kind::Both => Some(NodeKind::Both),
        Kind::After => Some(NodeKind::After),
        Kind::Same => Some(NodeKind::Compare(Comparison::Same)),
        Kind::Differ => Some(NodeKind::Compare(Comparison::Differ)),
        Kind::Either => Some(NodeKind::Either),
        Kind::Step | Kind::Jump | Kind::Test | Kind::Fork | Kind::Unknown => None,
    }
}

// The kind of an entry as a path.
pub fn path_kind(e: Entry) -> Option<PathKind>
    ensures { result ≡ path_kind_of e.kind }
{
    match e.kind {
        Kind::Step => Some(PathKind::Step),
        Kind::Jump => Some(PathKind::Jump),
        Kind::Test => Some(PathKind::Test),
        Kind::Fork => Some(PathKind::Fork),
        _ => None,
    }
}
