ghost use Rattle.std.specs.Prelude.{◌≡◌, ℕ, List, [], nat_eq};
ghost use Rattle.std.specs.List.{position};
ghost use Rattle.fsb_access.specs.Access.{accessed_line};
ghost use Rattle.fsb_timely.specs.Scripts.{first_chunk, is_load, locked_need, plain_need};
ghost use Rattle.fsb_agent.specs.Parts.{need_after};

use fsb_access::Access;

/// What an item needs of a line.
#[derive(Clone, Copy, Debug, PartialEq, Eq)]
pub(crate) struct LineNeed {
    pub(crate) line: u64,
    /// Whether for the agent by itself.
    pub(crate) alone: bool,
    /// The chunk that the item uses first.
    pub(crate) chunk: u8,
    /// Whether the item is a locked one.
    pub(crate) locked: bool,
}

impl LineNeed {
    /// What an access by itself needs.
    #[tactic(auto, unfolding(fsb_timely::specs::Scripts::plain_need, fsb_timely::specs::Scripts::is_load))]
    pub(crate) fn plain(access: &Access) -> LineNeed
        ensures { (earlier : List ℕ) →
            need_after earlier result ≡ plain_need earlier access.now }
    {
        LineNeed {
            line: access.line(),
            alone: !is_load(access),
            chunk: access.chunk(),
            locked: false,
        }
    }

    /// What an access of a locked item with these accesses needs.
    #[tactic(auto, unfolding(fsb_timely::specs::Scripts::locked_need))]
    pub(crate) fn locked(group: &[Access], access: &Access) -> LineNeed
        ensures { need_after [] result ≡ locked_need [] group.now access.now }
    {
        LineNeed {
            line: access.line(),
            alone: true,
            chunk: first_chunk(group, access.line()),
            locked: true,
        }
    }
}

/// Whether the access is a load.
#[tactic(auto, unfolding(fsb_timely::specs::Scripts::is_load))]
pub(crate) fn is_load(access: &Access) -> bool
    ensures { result ≡ is_load access.now }
{
    matches!(access, Access::Load { .. })
}

/// The chunk of the first of these accesses to the line.
#[tactic(auto, using(fsb_count::proofs::Interface::find_placed, fsb_count::proofs::Interface::find_none), unfolding(fsb_timely::specs::Scripts::first_chunk))]
fn first_chunk(accesses: &[Access], line: u64) -> u8
    ensures { result ≡ first_chunk accesses.now line }
{
    match first_to(accesses, line) {
        Some(place) => accesses[place].chunk(),
        None => 0,
    }
}

/// Where the first of these accesses to the line stands, if there is one.
fn first_to(accesses: &[Access], line: u64) -> Option<usize>
    ensures { result ≡ position (λ access. nat_eq (accessed_line access) line) accesses.now }
{
    accesses.iter().position(|access| access.line() == line)
}
