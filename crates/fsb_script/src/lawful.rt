//! Whether a script is lawful.

ghost use Rattle.std.specs.Prelude.{◌≡◌, ◌<◌};
ghost use Rattle.std.specs.List.{list_all};
ghost use Rattle.fsb_access.specs.Access.{is_lawful_access};
ghost use Rattle.fsb_script.specs.Bounds.{is_lawful_item, is_lawful_script};

use crate::bounds::{ITEMS, is_lock_apart, is_lock_size};
use fsb_access::{Access, Item};

/// Whether the script is lawful with a cache of so many lines: it has at most 4,096 items, each of
/// them lawful.
#[tactic(auto, unfolding(crate::specs::Bounds::is_lawful_script))]
pub fn is_lawful_script(cache: u32, items: &[Item]) -> bool
    requires { 0 < cache }
    ensures { result ≡ is_lawful_script cache items.now }
{
    items.len() <= ITEMS && are_lawful_items(cache, items)
}

fn are_lawful_items(cache: u32, items: &[Item]) -> bool
    requires { 0 < cache }
    ensures { result ≡ list_all (is_lawful_item cache) items.now }
{
    items.iter().all(|item| is_lawful_item(cache, item))
}

fn is_lawful_item(cache: u32, item: &Item) -> bool
    requires { 0 < cache }
    ensures { result ≡ is_lawful_item cache item.now }
{
    match item {
        Item::One(access) => access.is_lawful(),
        Item::Locked(group) => {
            let accesses = group.as_slice();
            are_lawful(accesses) && (is_lock_size(accesses) && is_lock_apart(cache, accesses))
        }
        Item::Idle(clocks) => 1 <= *clocks && *clocks <= 200_000,
    }
}

fn are_lawful(accesses: &[Access]) -> bool
    ensures { result ≡ list_all is_lawful_access accesses.now }
{
    accesses.iter().all(|access| access.is_lawful())
}
