//! What an agent keeps of itself, whatever happens to it: small functions with no code, whose contracts are the laws.

ghost use Rattle.std.specs.Prelude.{◌≡◌, ◌<◌, ◌≤◌, ℕ, List, [], ◌∷◌, ◌++◌, replicate, true, false};
ghost use Rattle.fsb_access.specs.declared.item.Item.{Item};
ghost use Rattle.fsb_script.specs.Bounds.{is_lawful_script, is_profile};
ghost use Rattle.fsb_agent_view.specs.AgentEvents.{AgentEvent, Stands, agent_after, first_view};
ghost use Rattle.fsb_agent_view.specs.AgentViews.{AgentView, answer_by};
ghost use Rattle.fsb_agent_view.specs.Arriving.{arrived_entries, given_up, hand_by, handed_on, may_give_up};
ghost use Rattle.fsb_agent_view.specs.Sound.{IsSound};
ghost use Rattle.fsb_agent_view.specs.Wanting.{want_by};
ghost use Rattle.fsb_agent_view.specs.WorkedAgent.{worked_after, worked_agent, worked_before, worked_entry, worked_request};

use fsb_line::Answer;

/// An agent is sound before any event, and stays so when it hands on bytes that it owes, and when it gives up a request that was not granted.
pub fn agents_stay_sound()
    ensures first { (number : ℕ) (items : List Item) (lines ahead profile : ℕ)
        → number < 4 → 0 < lines → is_lawful_script lines items ≡ true → 1 ≤ ahead → ahead ≤ 4
        → is_profile profile ≡ true → IsSound (first_view number items lines ahead profile) }
    ensures handed { (v : AgentView) (number : ℕ) → IsSound v → IsSound (handed_on v number) }
    ensures given_up { (v : AgentView) (number : ℕ) → IsSound v → may_give_up v number ≡ true
        → IsSound (given_up v number) }
{}

/// An agent before any event stands for none, and one that stands for some events stands, after one more event, for them
/// and that one.
pub fn agents_stand_for_their_events()
    ensures first { (number : ℕ) (items : List Item) (lines ahead profile : ℕ)
        → Stands (first_view number items lines ahead profile) [] }
    ensures next { (v : AgentView) (events : List AgentEvent) (event : AgentEvent)
        → Stands v events → Stands (agent_after v event) (events ++ event ∷ []) }
{}

/// A store whose line is handed over before its bytes have come is performed when they come, and the bytes that it leaves
/// are those that go on.
pub fn handed_over_store()
    ensures want { want_by worked_agent 0
        ≡ Some (record { request = worked_request 0; locked = false }) }
    ensures entries { arrived_entries worked_before 11 0 (replicate 32 0) ≡ worked_entry ∷ [] }
    ensures gone { answer_by worked_before 2 ≡ Answer.Clean }
    ensures owed { hand_by worked_after 1 ≡ Some (1 ∷ replicate 31 0) }
{}
