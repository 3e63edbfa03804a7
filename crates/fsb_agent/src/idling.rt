ghost use Rattle.std.specs.Prelude.{◌≡◌, ◌≤◌, ◌*◌, ◌^◌, length};
ghost use Rattle.fsb_agent_view.specs.Idling.{idle_clocks_in_front, idle_count_in_front};

use fsb_access::Item;

/// Idle items in a row.
#[derive(Clone, Copy)]
pub(crate) struct Idling {
    pub(crate) count: usize,
    /// The clocks that they idle together.
    pub(crate) clocks: u64,
}

/// The idle items in front.
pub(crate) fn idle_in_front(items: &[Item]) -> Idling
    requires { length items.now ≤ 4096 }
    ensures count { result.count ≡ idle_count_in_front items.now }
    ensures clocks { result.clocks ≡ idle_clocks_in_front items.now }
    ensures within { result.count ≤ length items.now }
    ensures bound { result.clocks ≤ 2 ^ 32 * length items.now }
{
    let mut count = 0;
    let mut clocks = 0;
    for item in items {
        let Item::Idle(more) = item else {
            return Idling { count, clocks };
        };
        count += 1;
        clocks += u64::from(*more);
    }
    Idling { count, clocks }
}
