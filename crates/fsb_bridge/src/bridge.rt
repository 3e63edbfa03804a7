ghost use Rattle.std.specs.Prelude.{◌≡◌, ◌<◌, ◌≤◌, [], ◌∷◌, ◌++◌, IsTrue, length, map, true, false};
ghost use Rattle.std.specs.List.{position};
ghost use Rattle.fsb_script.specs.Bounds.{is_lawful_bridge};
ghost use Rattle.fsb_bridge.specs.Deferrals.{deferral_of_id, due_deferral, is_covered, is_due_reply, is_of_id, is_waited_for, new_waiting, told, waiting_without, with_answer, with_reply};

use crate::deferral::{Deferral, News, Waiting, is_due_reply, told};
use arrayvec::ArrayVec;
use fsb_access::LINE_BYTES;
use fsb_encode::Request;
use fsb_script::Window;
use std::marker::Model;

/// The window of the bridge, and its deferrals, never more than sixteen.
#[derive(Drop)]
pub struct Bridge {
    window: Option<Window>,
    waiting: ArrayVec<Waiting, 16>,
}

impl Model for Bridge {
    ghost use Rattle.std.specs.Prelude.{IsTrue};
    ghost use Rattle.fsb_script.specs.Bounds.{is_lawful_bridge};
    ghost use Rattle.fsb_bridge.specs.Deferrals.{Bridged};

    ghost Value = { Bridged };

    ghost view = { λ bridge. record { window = bridge.window; waiting = bridge.waiting.items } };

    ghost invariant = { λ bridge. IsTrue (is_lawful_bridge bridge.window) };
}

impl Bridge {
    /// No deferral. A window is one of whole lines, below 2^36.
    pub fn new(window: Option<Window>) -> Bridge
        requires { IsTrue (is_lawful_bridge window) }
        ensures { result ≡ record { window = window; waiting = [] } }
    {
        Bridge {
            window,
            waiting: ArrayVec::new(),
        }
    }

    /// Whether the line is in the window.
    pub fn in_window(&self, line: u64) -> bool
        ensures { result ≡ is_covered self.now.window line }
    {
        match self.window {
            None => false,
            Some(window) => {
                let first = window.base / LINE_BYTES;
                first <= line && line - first < window.size / LINE_BYTES
            }
        }
    }

    /// The deferrals that wait for their replies, in the order in which they came.
    pub fn waiting(&self) -> &[Waiting]
        ensures value { result.now ≡ self.now.waiting }
        ensures most { length self.now.waiting ≤ 16 }
    {
        self.waiting.as_slice()
    }

    /// Whether the line is pending: a deferral of it waits for its reply.
    pub fn pending(&self, line: u64) -> bool
        ensures { result ≡ is_waited_for line self.now.waiting }
    {
        self.waiting
            .iter()
            .any(|waiting| waiting.deferral.request.line == line)
    }

    /// Adds a deferral, at the snoop end of its request. Its reply is due so much later.
    pub fn defer(&mut self, number: u32, request: Request, shared: bool, later: u16)
        requires { length self.old.waiting < 16 }
        ensures { self.new ≡ record self.old {
          waiting = self.old.waiting ++ new_waiting number request shared later ∷ [];
        } }
    {
        self.waiting.push(Waiting {
            deferral: Deferral {
                number,
                request,
                shared,
            },
            later,
            answered: None,
            begun: false,
        });
    }

    /// Tells the clock of the response to the deferred request of this number.
    pub fn answered(&mut self, number: u32, clock: u32)
        ensures { self.new ≡ record self.old {
          waiting = map (with_answer number clock) self.old.waiting;
        } }
    {
        self.hear(News::Answered { number, clock });
    }

    /// The first deferral whose reply is due at the clock.
    pub fn due(&self, clock: u32) -> Option<Deferral>
        ensures { result ≡ due_deferral clock self.now.waiting }
    {
        self.waiting
            .iter()
            .find(|waiting| is_due_reply(clock, waiting))
            .map(|waiting| waiting.deferral)
    }

    /// Tells that the reply with this ID began.
    pub fn begun(&mut self, did: u8)
        ensures { self.new ≡ record self.old {
          waiting = map (with_reply did true) self.old.waiting;
        } }
    {
        self.hear(News::Reply { did, begun: true });
    }

    /// Tells that the reply with this ID was cancelled: it is due again.
    pub fn cancelled(&mut self, did: u8)
        ensures { self.new ≡ record self.old {
          waiting = map (with_reply did false) self.old.waiting;
        } }
    {
        self.hear(News::Reply { did, begun: false });
    }

    /// Tells that the reply with this ID had its snoop end: the first deferral with this ID leaves the list, and is the
    /// answer.
    #[tactic(auto, using(fsb_count::proofs::Interface::find_item, fsb_count::proofs::Interface::find_none))]
    pub fn committed(&mut self, did: u8) -> Option<Deferral>
        ensures deferral { result ≡ deferral_of_id did self.old.waiting }
        ensures rest { self.new ≡ record self.old
            { waiting = waiting_without did self.old.waiting } }
    {
        let place = self.place_of(did)?;
        Some(self.waiting.remove(place).deferral)
    }

    /// Where the first deferral with this ID stands.
    fn place_of(&self, did: u8) -> Option<usize>
        ensures { result ≡ position (is_of_id did) self.now.waiting }
    {
        self.waiting
            .iter()
            .position(|waiting| waiting.deferral.request.did == did)
    }

    /// Each deferral hears the news.
    fn hear(&mut self, news: News)
        ensures { self.new ≡ record self.old { waiting = map (told news) self.old.waiting } }
    {
        for waiting in self.waiting.as_mut_slice() {
            *waiting = told(news, *waiting);
        }
    }
}
