// Document 01's table of entries, with the kind that document 02's Job 6 adds: the kinds, which of them
// are nodes and which are paths, and what the three fields of each hold.
ghost use Rattle.std.specs.Prelude.{◌≡◌};
ghost use Rattle.pattern.specs.File.Table.{sort_of, form_of, is_node, is_path};

// The documents' kinds, in their words. In the words of the sources: `After` is the modal diamond, `Same`
// and `Differ` are the data comparisons, `Jump` goes to a named node, `Fork` is the union of paths,
// and each path kind carries the rest of its path. `Either` is a node, and the disjunction of two.
#[derive(Clone, Copy, PartialEq, Eq)]
pub enum Kind {
    Property,
    Name,
    Not,
    Both,
    After,
    Same,
    Differ,
    Step,
    Jump,
    Test,
    Fork,
    Either,
    // Of a number that the table lacks. A kind as an Option would put a test before each row of the table, and
    // refusal 4 asks the sort alone.
    Unknown,
}

// Document 01's sorts of entries: nodes, which hold at a node or not, and paths, which lead from a node
// to others. `Neither` and, of a field, `Unused` are words of the document's table and not none: a check asks
// each by name.
#[derive(Clone, Copy, PartialEq, Eq)]
pub enum Sort {
    Node,
    Path,
    Neither,
}

// What a field holds: one of the numbers of `types`, or a reference to a node entry or to a path.
#[derive(Clone, Copy, PartialEq, Eq)]
pub enum Field {
    Unused,
    Property,
    Name,
    Axis,
    Channel,
    Node,
    Path,
}

// What the fields x, y and z of a kind hold.
#[derive(Clone, Copy, PartialEq, Eq)]
pub struct Form {
    pub x: Field,
    pub y: Field,
    pub z: Field,
}

// The path reference that means end of path.
pub const END: u8 = 255;

impl From<u8> for Kind {
    ghost use Rattle.std.specs.Prelude.{◌≡◌};
    ghost use Rattle.pattern.specs.File.Table.{kind_of};

    ghost from_gives = { λ number kind. kind ≡ kind_of number };

    fn from(number: u8) -> Kind {
        match number {
            1 => Kind::Property,
            2 => Kind::Name,
            3 => Kind::Not,
            4 => Kind::Both,
            5 => Kind::After,
            6 => Kind::Same,
            7 => Kind::Differ,
            8 => Kind::Step,
            9 => Kind::Jump,
            10 => Kind::Test,
            11 => Kind::Fork,
            12 => Kind::Either,
            _ => Kind::Unknown,
        }
    }
}

impl Kind {
    pub fn sort(self) -> Sort
        ensures { result ≡ sort_of self }
    {
        match self {
            Kind::Property => Sort::Node,
            Kind::Name => Sort::Node,
            Kind::Not => Sort::Node,
            Kind::Both => Sort::Node,
            Kind::After => Sort::Node,
            Kind::Same => Sort::Node,
            Kind::Differ => Sort::Node,
            Kind::Step => Sort::Path,
            Kind::Jump => Sort::Path,
            Kind::Test => Sort::Path,
            Kind::Fork => Sort::Path,
            Kind::Either => Sort::Node,
            Kind::Unknown => Sort::Neither,
        }
    }

    pub fn form(self) -> Form
        ensures { result ≡ form_of self }
    {
        match self {
            Kind::Property => row(Field::Property, Field::Unused, Field::Unused),
            Kind::Name => row(Field::Name, Field::Unused, Field::Unused),
            Kind::Not => row(Field::Node, Field::Unused, Field::Unused),
            Kind::Both => row(Field::Node, Field::Node, Field::Unused),
            Kind::After => row(Field::Axis, Field::Node, Field::Unused),
            Kind::Same => row(Field::Channel, Field::Path, Field::Path),
            Kind::Differ => row(Field::Channel, Field::Path, Field::Path),
            Kind::Step => row(Field::Axis, Field::Path, Field::Unused),
            Kind::Jump => row(Field::Name, Field::Path, Field::Unused),
            Kind::Test => row(Field::Node, Field::Path, Field::Unused),
            Kind::Fork => row(Field::Path, Field::Path, Field::Unused),
            Kind::Either => row(Field::Node, Field::Node, Field::Unused),
            Kind::Unknown => row(Field::Unused, Field::Unused, Field::Unused),
        }
    }
}

impl Sort {
    pub fn is_node(self) -> bool
        ensures { result ≡ is_node self }
    {
        self == Sort::Node
    }

    pub fn is_path(self) -> bool
        ensures { result ≡ is_path self }
    {
        self == Sort::Path
    }
}

fn row(x: Field, y: Field, z: Field) -> Form
    ensures { result ≡ record { x = x; y = y; z = z } }
{
    Form { x, y, z }
}
