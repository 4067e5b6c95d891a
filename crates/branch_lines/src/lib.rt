// A branch in lent bytes: its lines, eight bytes each, and the names that are fresh on it.
#![tactic(auto)]

mod fresh;
mod stored;

pub use fresh::is_fresh;
pub use stored::{form_at, load, load_compare, load_has, load_is, store};
