//! How many accesses a plan has.
ghost use Rattle.std.specs.Prelude.{◌≡◌, ◌≤◌, ◌*◌, IsTrue, length};
ghost use Rattle.std.specs.List.{list_all};
ghost use Rattle.fsb_plan_size.specs.AccessCount.{item_accesses, has_few_accesses, script_accesses, access_count};

use fsb_access::Item;
use fsb_script::Plan;

/// The accesses of all scripts of the plan.
pub fn access_count(plan: &Plan) -> u32
    ensures value { result ≡ access_count plan.now.scripts }
{
    let mut count = 0;
    for script in plan.scripts.as_slice() {
        count += script_accesses(script.as_slice());
    }
    count
}

// The accesses of a script.
fn script_accesses(items: &[Item]) -> u32
    requires few { length items.now ≤ 4096 }
    requires small { IsTrue (list_all has_few_accesses items.now) }
    ensures value { result ≡ script_accesses items.now }
    ensures few { result ≤ 8 * length items.now }
{
    let mut count = 0;
    for item in items {
        count += item_accesses(item);
    }
    count
}

// The accesses of an item.
fn item_accesses(item: &Item) -> u32
    requires { IsTrue (has_few_accesses item.now) }
    ensures { result ≡ item_accesses item.now }
{
    match item {
        Item::One(_) => 1,
        Item::Locked(group) => group.as_slice().len() as u32,
        Item::Idle(_) => 0,
    }
}
