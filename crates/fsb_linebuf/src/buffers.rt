ghost use Rattle.std.specs.Prelude.{◌≡◌, ◌<◌, ◌≤◌, [], ◌∷◌, ◌++◌, length, IsSome};
ghost use Rattle.std.specs.List.{position};
ghost use Rattle.std.specs.Option.{option_map};
ghost use Rattle.fsb_linebuf.specs.Buffers.{OneALine, fill_on, fills_without, is_fill_on, is_push_for, promise_on, promised_to, push_for, pushed_to, pushes_without};

use crate::entry::{Fill, Push};
use arrayvec::ArrayVec;
use std::marker::Model;

/// The fills that are under way and the pushes that are owed.
#[derive(Drop)]
pub struct LineBuffers {
    fills: ArrayVec<Fill, 4>,
    pushes: ArrayVec<Push, 8>,
}

impl Model for LineBuffers {
    ghost use Rattle.fsb_linebuf.specs.Buffers.{Buffered, OneALine};

    ghost Value = { Buffered };

    ghost view = { λ buffers.
        record { fills = buffers.fills.items; pushes = buffers.pushes.items } };

    ghost invariant = { λ buffers. OneALine buffers.fills.items };
}

impl LineBuffers {
    /// No fill and no push.
    pub fn new() -> LineBuffers
        ensures { result ≡ record { fills = []; pushes = [] } }
    {
        LineBuffers {
            fills: ArrayVec::new(),
            pushes: ArrayVec::new(),
        }
    }

    /// The fills that are under way.
    pub fn fills(&self) -> &[Fill]
        ensures value { result.now ≡ self.now.fills }
        ensures most { length self.now.fills ≤ 4 }
        ensures one_a_line { OneALine self.now.fills }
    {
        self.fills.as_slice()
    }

    /// The pushes that are owed.
    pub fn pushes(&self) -> &[Push]
        ensures value { result.now ≡ self.now.pushes }
        ensures most { length self.now.pushes ≤ 8 }
    {
        self.pushes.as_slice()
    }

    /// The line's fill, if there is one.
    #[tactic(auto, using(fsb_count::proofs::Interface::find_placed, fsb_count::proofs::Interface::find_none))]
    pub fn fill_on(&self, line: u64) -> Option<Fill>
        ensures { result ≡ fill_on line self.now.fills }
    {
        let place = self.fill_place(line)?;
        Some(self.fills[place])
    }

    /// Adds a fill of the line without a promise: the request of this number brings the bytes.
    pub fn begin_fill(&mut self, line: u64, number: u32)
        requires room { length self.old.fills < 4 }
        requires free { fill_on line self.old.fills ≡ None }
        ensures { self.new ≡ record self.old {
          fills =
              self.old.fills ++ record { line = line; number = number; promise = None } ∷ [];
        } }
    {
        self.fills.push(Fill {
            line,
            number,
            promise: None,
        });
    }

    /// Promises the line's fill to the transaction of this number.
    pub fn promise(&mut self, line: u64, to: u32)
        requires fill { IsSome (fill_on line self.old.fills) }
        requires free { promise_on line self.old.fills ≡ None }
        ensures { self.new ≡ record self.old { fills = promised_to line to self.old.fills } }
    {
        for fill in self.fills.as_mut_slice() {
            if fill.line == line {
                fill.promise = Some(to);
            }
        }
    }

    /// Ends the line's fill with these bytes. Where the fill was promised, they are now owed to the
    /// transaction that it was promised to, whose number is the answer.
    pub fn arrive(&mut self, line: u64, bytes: [u8; 32]) -> Option<u32>
        requires fill { IsSome (fill_on line self.old.fills) }
        requires room { IsSome (promise_on line self.old.fills) → length self.old.pushes < 8 }
        ensures promised { result ≡ promise_on line self.old.fills }
        ensures moves { self.new ≡ record {
          fills = fills_without line self.old.fills;
          pushes = pushed_to result bytes self.old.pushes;
        } }
    {
        let to = self.take_fill(line)?.promise?;
        self.put_push(to, bytes);
        Some(to)
    }

    /// Adds a push: these bytes are owed to the transaction of this number.
    pub fn put_push(&mut self, number: u32, bytes: [u8; 32])
        requires { length self.old.pushes < 8 }
        ensures { self.new ≡ record self.old {
          pushes =
              self.old.pushes ++ record { number = number; bytes = bytes } ∷ [];
        } }
    {
        self.pushes.push(Push { number, bytes });
    }

    /// Takes out the first push for the transaction of this number, if there is one, and gives its
    /// bytes.
    #[tactic(auto, using(fsb_count::proofs::Interface::find_item, fsb_count::proofs::Interface::find_none))]
    pub fn take_push(&mut self, number: u32) -> Option<[u8; 32]>
        ensures bytes { result ≡ option_map (λ push. push.bytes) (push_for number self.old.pushes) }
        ensures rest { self.new ≡ record self.old
            { pushes = pushes_without number self.old.pushes } }
    {
        let place = self.push_place(number)?;
        Some(self.pushes.remove(place).bytes)
    }

    /// Ends the line's fill, if there is one: no bytes come, as for a request that was cancelled or
    /// retried.
    pub fn end_fill(&mut self, line: u64)
        ensures { self.new ≡ record self.old { fills = fills_without line self.old.fills } }
    {
        self.take_fill(line);
    }

    /// Takes out the line's fill, if there is one.
    #[tactic(auto, using(fsb_count::proofs::Interface::find_item, fsb_count::proofs::Interface::find_none))]
    fn take_fill(&mut self, line: u64) -> Option<Fill>
        ensures fill { result ≡ fill_on line self.old.fills }
        ensures rest { self.new ≡ record self.old { fills = fills_without line self.old.fills } }
    {
        let place = self.fill_place(line)?;
        Some(self.fills.remove(place))
    }

    /// Where the line's fill stands, if there is one.
    fn fill_place(&self, line: u64) -> Option<usize>
        ensures { result ≡ position (is_fill_on line) self.now.fills }
    {
        self.fills.iter().position(|fill| fill.line == line)
    }

    /// Where the first push for the transaction of this number stands, if there is one.
    fn push_place(&self, number: u32) -> Option<usize>
        ensures { result ≡ position (is_push_for number) self.now.pushes }
    {
        self.pushes.iter().position(|push| push.number == number)
    }
}
