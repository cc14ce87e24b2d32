ghost use Rattle.std.specs.Prelude.{◌≡◌, ◌≤◌, IsTrue};
ghost use Rattle.tv_base.specs.declared.numbers.Version as version;
ghost use Rattle.item_versions.specs.Collecting.{may_collect_all, collected_all, items_seen_in, numbers_in};

use item_versions::ItemTable;
use tv_base::Version;

/// Collects every item of the table to version `f`. Each has a version that is at most `f`. What is seen in `f`, and in
/// every later version, stays. It needs no memory.
pub fn collect_table(items: &mut ItemTable, f: Version)
    requires { IsTrue (may_collect_all f items.old) }
    ensures items { items.new ≡ collected_all f items.old }
    ensures numbers { numbers_in items.new ≡ numbers_in items.old }
    ensures seen { (v : version.Version) → f.0 ≤ v.0 → items_seen_in v items.new ≡ items_seen_in v items.old }
{
    let count = items.count();
    for place in 0..count {
        items.collect_at(place, f);
    }
}
