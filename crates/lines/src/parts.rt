// Tests of the parts of lines: what must be alike. Signs, names and channels are compared as they are.
ghost use Rattle.std.specs.Prelude.{◌≡◌};
ghost use Rattle.lines.specs.Parts.{at_end, both_at_end};

use crate::line::{CompareLine, Side};
use pattern::table::END;

impl Side {
    // "(i, end)".
    pub fn at_end(self) -> bool
        ensures { result ≡ at_end self }
    {
        self.path == END
    }
}

impl CompareLine {
    pub fn both_at_end(self) -> bool
        ensures { result ≡ both_at_end self }
    {
        self.left.at_end() && self.right.at_end()
    }
}
