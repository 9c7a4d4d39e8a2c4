//! Arriving blocks are joined to messages: what each block is, and when T4 drops what isn't whole.

ghost use Rattle.std.specs.Prelude.{◌≡◌, ◌+◌, ◌^◌, ◌<◌, ◌≤◌, ◌↔◌, ◌++◌, ◌&&◌, [], ◌∷◌, List, Some, None, length, map, min, slice_index_or, IfOk, IfSome, IfNone, OnErr, OnOk};
ghost use Rattle.std.specs.List.{find, position, position_or_len, reduce, remove};
ghost use Rattle.std.specs.Option.{option_copied, option_map, OnSome};
ghost use Rattle.block_codec.specs.Header.{Fits};
ghost use Rattle.message_flow.specs.declared.partial.Partial.{Partial};
ghost use Rattle.message_flow.specs.Assembly.{AssemblyView, FlowsNext, IsAccepted, IsAssembly, IsNextAfter, WholeFits, WholeIsChecked, check_so_far, first_flow, flow_to, has_key, header_so_far, is_due, with_first, with_flow, without_due};
ghost use Rattle.message_flow.specs.Entries.{StandsFor};
ghost use Rattle.message_flow.specs.Key.{is_given};
ghost use Rattle.message_flow.specs.Receiver.{IsReceiver, Receiver, address_of, is_foreign};
ghost use Rattle.message_flow.specs.Standing.{IsCheckedAt, IsDroppedAt, IsFlowAt, IsNextDeadline, StandsWithBlock, StandsWithDrop};

use crate::key::{same_header, same_key};
use crate::partial::Partial;
use crate::{Flow, Message};
use block_codec::{Block, Header};
use gl_base::{NoMemory, Row, Side};
use secs_items::BodyCheck;
use std::alloc::Global;
use std::marker::Model;

// The most messages that are open.
const MOST: usize = 16;

/// The messages that come in to one side, block by block.
#[derive(Debug, Drop)]
pub struct Assembly {
    alloc: Global,
    side: Side,
    device: Option<u16>,
    t4: u32,
    max_body: u32,
    last: Option<Header>,
    partials: Vec<Partial>,
}

impl Model for Assembly {
    ghost use Rattle.message_flow.specs.Assembly.{AssemblyView, IsAssembly};
    ghost use Rattle.message_flow.specs.Receiver.{Receiver};

    ghost Value = { AssemblyView };

    ghost view = { λ inside. record {
      receiver = record { side = inside.side; device = inside.device; t4 = inside.t4; max_body = inside.max_body };
      last = inside.last;
      partials = inside.partials.items;
    } };

    ghost invariant = { λ inside. IsAssembly (record {
      receiver = record { side = inside.side; device = inside.device; t4 = inside.t4; max_body = inside.max_body };
      last = inside.last;
      partials = inside.partials.items;
    }) };
}

impl Assembly {
    /// What comes in to this side, from every device where none is given. T4 is in milliseconds, and `max_body` is
    /// the most bytes of a message's text that is taken. No memory is taken yet.
    pub fn new(alloc: Global, side: Side, device: Option<u16>, t4: u32, max_body: u32) -> Assembly
        requires { IsReceiver (record { side = side; device = device; t4 = t4; max_body = max_body }) }
        ensures receiver { result.receiver ≡ record { side = side; device = device; t4 = t4; max_body = max_body } }
        ensures stands { StandsFor result [] }
    {
        Assembly {
            alloc,
            side,
            device,
            t4,
            max_body,
            last: None,
            partials: Vec::new(alloc),
        }
    }

    /// What a block is that arrives now, after all blocks that were given so far and all messages that T4 dropped. A
    /// whole message fits, and its text has no more bytes than this side takes. Its text was checked block by block, as
    /// it came, and the check comes with it.
    ///
    /// Where memory runs out nothing has changed, and the block was not given.
    #[tactic(auto, using(crate::proofs::Standing::flow_stands, crate::proofs::Standing::stands_given))]
    pub fn accept(&mut self, block: &Block, now: u64) -> Result<Flow, NoMemory>
        requires { now < 2 ^ 62 }
        ensures kept { IfOk result (IsAccepted self.old block.now now self.new) }
        ensures whole { IfOk result (WholeFits self.old.receiver.max_body) }
        ensures checked { IfOk result WholeIsChecked }
        ensures answer { IsFlowAt self.old block.now result }
        ensures stands { StandsWithBlock self.old self.new block.now now result }
        ensures receiver { self.new.receiver ≡ self.old.receiver }
        ensures err { OnErr result (self.new ≡ self.old) }
    {
        let flow = self.judge(block, now)?;
        self.last = Some(block.header());
        Ok(flow)
    }

    /// Gives up one message on which T4 has run out: of several, the one whose first block came first. The answer is
    /// the header of the block that came last for it.
    ///
    /// Where T4 has run out on no message, and only there, the answer is `None`. No memory is taken.
    pub fn tick(&mut self, now: u64) -> Option<Header>
        ensures answer { result ≡ header_so_far (find (is_due now) self.old.partials) }
        ensures kept { self.new ≡ without_due now self.old }
        ensures dropped { IsDroppedAt self.old now result }
        ensures stands { StandsWithDrop self.old self.new now result }
        ensures receiver { self.new.receiver ≡ self.old.receiver }
        ensures none { IfNone result (self.new ≡ self.old) }
        ensures fits { IfSome result Fits }
    {
        let place = self.first_due(now)?;
        Some(self.partials.remove(place).header)
    }

    /// When T4 runs out on a message next: T4 after the last block of one, the least of all. `None` exactly where no
    /// message is open.
    #[tactic(auto, using(crate::proofs::Deadlines::deadline_stands))]
    pub fn deadline(&self) -> Option<u64>
        ensures kept { result ≡ reduce min (map (λ partial. partial.deadline) self.now.partials) }
        ensures answer { IsNextDeadline self.now result }
    {
        self.least_deadline()
    }

    /// The check of the text that has come so far of the message with this header's key. E bit and block number don't
    /// count.
    ///
    /// `None` exactly where no message of the key is open. The check went with the blocks, so no text is looked at
    /// here, and no memory is taken.
    #[tactic(auto, using(crate::proofs::Standing::checked_stands))]
    pub fn checked(&self, header: &Header) -> Option<&BodyCheck>
        ensures kept { option_copied result ≡ check_so_far (find (has_key header.now) self.now.partials) }
        ensures answer { IsCheckedAt self.now header.now (option_copied result) }
    {
        self.check_so_far(header)
    }

    // What a block is, with the change of the open messages that follows.
    fn judge(&mut self, block: &Block, now: u64) -> Result<Flow, NoMemory>
        requires { now < 2 ^ 62 }
        ensures flow { IfOk result (λ flow. flow ≡ flow_to self.old block.now) }
        ensures partials { IfOk result (λ flow. self.new ≡ with_flow self.old block.now now flow) }
        ensures err { OnErr result (self.new ≡ self.old) }
    {
        let header = block.header();
        if self.is_given(&header) {
            return Ok(Flow::Duplicate);
        }
        if self.is_foreign(&header) {
            return Ok(Flow::Foreign(address_of(&header)));
        }
        match self.place_of(&header) {
            Some(place) => self.go_on(place, block, now),
            None => self.begin(block, now),
        }
    }

    // What a block is whose message is open at this place.
    fn go_on(&mut self, place: usize, block: &Block, now: u64) -> Result<Flow, NoMemory>
        requires now { now < 2 ^ 62 }
        requires place { place < length self.old.partials }
        ensures flow { FlowsNext self.old place block.now result }
        ensures partials { IsNextAfter self.old self.new place block.now now result }
        ensures err { OnErr result (self.new ≡ self.old) }
    {
        let header = block.header();
        let deadline = now + u64::from(self.t4);
        let partial = &mut self.partials[place];
        if u32::from(header.number) != u32::from(partial.header.number) + 1 {
            self.partials.remove(place);
            return Ok(Flow::Unexpected);
        }
        if partial.body.len() + block.body().len() > self.max_body as usize {
            self.partials.remove(place);
            return Ok(Flow::TooLong);
        }
        partial.grow(block, deadline)?;
        if header.last {
            Ok(self.partials.remove(place).into_whole())
        } else {
            Ok(Flow::Part)
        }
    }

    // What a block is whose message is not open.
    fn begin(&mut self, block: &Block, now: u64) -> Result<Flow, NoMemory>
        requires { now < 2 ^ 62 }
        ensures flow { IfOk result (λ flow. flow ≡ first_flow self.old block.now) }
        ensures partials { IfOk result (λ flow. self.new ≡ with_first self.old block.now now flow) }
        ensures err { OnErr result (self.new ≡ self.old) }
    {
        let header = block.header();
        if header.number != 1 && !(header.number == 0 && header.last) {
            return Ok(Flow::Unexpected);
        }
        if !header.last && self.partials.len() == MOST {
            return Ok(Flow::Crowded);
        }
        let partial = Partial::new(self.alloc, block, now + u64::from(self.t4))?;
        if header.last {
            return Ok(partial.into_whole());
        }
        self.partials.push(partial)?;
        Ok(Flow::Part)
    }

    // The least deadline of the open messages.
    fn least_deadline(&self) -> Option<u64>
        ensures { result ≡ reduce min (map (λ partial. partial.deadline) self.now.partials) }
    {
        self.partials.iter().map(|partial| partial.deadline).min()
    }

    // The check of the message with the key of this header.
    fn check_so_far(&self, header: &Header) -> Option<&BodyCheck>
        ensures { option_copied result ≡ check_so_far (find (has_key header.now) self.now.partials) }
    {
        let partial = self
            .partials
            .iter()
            .find(|partial| same_key(&partial.header, header))?;
        Some(&partial.check)
    }

    // The place of the message with the key of this header.
    fn place_of(&self, header: &Header) -> Option<usize>
        ensures { result ≡ position (has_key header.now) self.now.partials }
    {
        self.partials
            .iter()
            .position(|partial| same_key(&partial.header, header))
    }

    // The first place, in the order of opening, at which a message stands whose T4 has run out.
    fn first_due(&self, now: u64) -> Option<usize>
        ensures { result ≡ position (is_due now) self.now.partials }
    {
        self.partials
            .iter()
            .position(|partial| partial.deadline <= now)
    }

    // Whether the block that came last has this header.
    fn is_given(&self, header: &Header) -> bool
        ensures { result ≡ is_given self.now.last header.now }
    {
        match &self.last {
            Some(last) => same_header(last, header),
            None => false,
        }
    }

    // Whether a block goes out from this side, or is of another device.
    fn is_foreign(&self, header: &Header) -> bool
        ensures { result ≡ is_foreign self.now.receiver header.now }
    {
        let own = header.from_equipment == (self.side == Side::Equipment);
        own || self.device.is_some_and(|device| device != header.device)
    }
}

// The first two bytes of a header, as one number.
fn address_of(header: &Header) -> u16
    requires { Fits header.now }
    ensures { result ≡ address_of header.now }
{
    let [high, low, ..] = header.to_bytes();
    u16::from_be_bytes([high, low])
}
