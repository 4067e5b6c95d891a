// The fields of an entry: the ranges of what they hold, for refusal 5, and where references go, for 6.
#![tactic(auto)]

ghost use Rattle.std.specs.Prelude.{◌≡◌};
ghost use Rattle.pattern.specs.File.Fields.{each_field};
ghost use Rattle.pattern.specs.File.Entries.{HasEntry};
ghost use Rattle.pattern.specs.File.Reading.{in_range, earlier_sort, refers_back};

use pattern::entry::{Entry, sort_at};
use pattern::table::{END, Field, Sort};
use pattern::types::{Axis, Channel, Name, Property};

// Whether the value of a field is in the range of what the field holds.
fn in_range(field: Field, value: u8) -> bool
    ensures { result ≡ in_range field value }
{
    match field {
        Field::Unused => value == 0,
        Field::Property => Property::try_from(value).is_ok(),
        Field::Name => Name::try_from(value).is_ok(),
        Field::Axis => Axis::try_from(value).is_ok(),
        Field::Channel => Channel::try_from(value).is_ok(),
        Field::Node | Field::Path => true,
    }
}

// The sort of entry v if it stands before entry k; otherwise there is none.
fn earlier_sort(p: &[u8], k: u8, v: u8) -> Sort
    requires { HasEntry p.now k }
    ensures { result ≡ earlier_sort p.now k v }
{
    if v < k {
        return sort_at(p, v);
    }
    Sort::Neither
}

// Whether a field of entry k, if it is a reference, refers to an earlier entry of its sort.
fn refers_back(p: &[u8], k: u8, field: Field, value: u8) -> bool
    requires { HasEntry p.now k }
    ensures { result ≡ refers_back p.now k field value }
{
    match field {
        Field::Node => earlier_sort(p, k, value).is_node(),
        Field::Path => value == END || earlier_sort(p, k, value).is_path(),
        Field::Unused | Field::Property | Field::Name | Field::Axis | Field::Channel => true,
    }
}

// Whether the value of each field of the entry is in range, for refusal 5.
#[tactic(auto, unfolding(pattern::specs::File::Fields::each_field))]
pub fn all_in_range(e: Entry) -> bool
    ensures { result ≡ each_field in_range e }
{
    let form = e.kind.form();
    in_range(form.x, e.x) && in_range(form.y, e.y) && in_range(form.z, e.z)
}

// Whether each reference of entry k, which is e, goes back to an entry of its sort, for refusal 6.
#[tactic(auto, unfolding(pattern::specs::File::Fields::each_field))]
pub fn all_refer_back(p: &[u8], k: u8, e: Entry) -> bool
    requires { HasEntry p.now k }
    ensures { result ≡ each_field (refers_back p.now k) e }
{
    let form = e.kind.form();
    refers_back(p, k, form.x, e.x)
        && refers_back(p, k, form.y, e.y)
        && refers_back(p, k, form.z, e.z)
}
