// Which entries of a pattern have a name.
ghost use Rattle.std.specs.Prelude.{◌≡◌};
ghost use Rattle.pattern.specs.Meaning.Names.{bears_name};

use crate::table::Kind;

// Whether an entry of the kind has a name: its field x.
pub fn bears_name(kind: Kind) -> bool
    ensures { result ≡ bears_name kind }
{
    kind == Kind::Name || kind == Kind::Jump
}
