//! An open message of the assembly, which grows block by block until it is whole.

ghost use Rattle.std.specs.Prelude.{◌≡◌, ◌+◌, ◌≤◌, [], length, OnErr, OnOk, IfOk};
ghost use Rattle.message_flow.specs.declared.flow.Flow.TheVariants.{Whole};
ghost use Rattle.message_flow.specs.Assembly.{message_of, new_partial, next_partial};
ghost use Rattle.secs_items.specs.Checking.{check_of};

use crate::{Flow, Message};
use block_codec::{Block, Header};
use gl_base::{NoMemory, Row};
use secs_items::BodyCheck;
use std::alloc::Global;

/// A message of which some blocks have come: the header of the last of them, when T4 drops it, its text so far, and the
/// check of that text.
#[derive(Debug, Drop)]
pub(crate) struct Partial {
    pub(crate) header: Header,
    pub(crate) deadline: u64,
    pub(crate) body: Row<u8>,
    pub(crate) check: BodyCheck,
}

impl Partial {
    // A message of which this block is the first.
    pub(crate) fn new(alloc: Global, block: &Block, deadline: u64) -> Result<Partial, NoMemory>
        ensures { IfOk result (λ partial. partial ≡ new_partial block.now deadline) }
    {
        let mut body = Row::new(alloc);
        body.extend(block.body())?;
        Ok(Partial {
            header: block.header(),
            deadline,
            body,
            check: check_of(block),
        })
    }

    // The next block has come. Where memory runs out the message stays as it was.
    pub(crate) fn grow(&mut self, block: &Block, deadline: u64) -> Result<(), NoMemory>
        requires checked { self.old.check ≡ check_of self.old.body }
        requires few { length self.old.body + length block.now.body ≤ 7995148 }
        ensures ok { OnOk result (self.new ≡ next_partial self.old block.now deadline) }
        ensures err { OnErr result (self.new ≡ self.old) }
    {
        let text = block.body();
        self.body.extend(text)?;
        self.check.feed(text);
        self.header = block.header();
        self.deadline = deadline;
        Ok(())
    }

    // The message, whole, and the check of its text.
    pub(crate) fn into_whole(self) -> Flow
        ensures { result ≡ Whole (message_of self.header self.body) self.check }
    {
        let message = Message {
            stream: self.header.stream,
            function: self.header.function,
            wait: self.header.wait,
            system: self.header.system,
            body: self.body,
        };
        Flow::Whole(message, self.check)
    }
}

// The check of a block's text.
fn check_of(block: &Block) -> BodyCheck
    ensures { result ≡ check_of block.now.body }
{
    let text = block.body();
    let mut check = BodyCheck::new();
    check.feed(text);
    check
}
