//! How many slots each message of a list takes, as it is decided, and as the disk has it.

ghost use Rattle.std.specs.Prelude.{◌≡◌, ◌+◌, ◌<◌, ◌≤◌, ◌++◌, ◌∷◌, [], drop, length, sum, IfOk, OnErr, OnOk};
ghost use Rattle.spool_ledger.specs.Sizes.{oldest_of, sized};

use gl_base::NoMemory;
use std::alloc::Global;
use std::collections::VecDeque;
use std::marker::Model;

/// The sizes in slots, the oldest message's first, of messages that take at most 65,535 slots. Those of the disk's list
/// stay at the front until the works are handed over by which they leave, so that each size is kept once.
#[derive(Debug, Drop)]
pub(crate) struct Sizes {
    each: VecDeque<u16>,
    // so many at the front have left since the works were handed over
    gone: usize,
    // so many at the front are those of the disk's list
    stood: usize,
    // the slots of all that haven't left
    used: u32,
}

impl Model for Sizes {
    ghost use Rattle.spool_ledger.specs.Sizes.{AreSizes, SizesView, sizes_code, sizes_in};

    ghost Value = { SizesView };

    ghost coded = { sizes_code };

    ghost view = { λ inside. sizes_in inside.each.items inside.gone inside.stood };

    ghost invariant = { λ inside. AreSizes inside.each.items inside.gone inside.stood inside.used };
}

impl Sizes {
    /// Messages of these sizes.
    pub(crate) fn of(alloc: Global, sizes: &[u16]) -> Result<Sizes, NoMemory>
        requires used { sum sizes.now ≤ 65535 }
        requires len { length sizes.now ≤ 65535 }
        ensures { IfOk result (λ all. all ≡ sized sizes.now sizes.now) }
    {
        let mut each = VecDeque::new(alloc);
        let mut used = 0;
        'sizes: for at in 0..sizes.len() {
            let size = sizes[at];
            each.push_back(size)?;
            used += u32::from(size);
        }
        Ok(Sizes {
            each,
            gone: 0,
            stood: sizes.len(),
            used,
        })
    }

    /// How many messages there are.
    pub(crate) fn len(&self) -> u32
        ensures { result ≡ length self.now.now }
    {
        (self.each.len() - self.gone) as u32
    }

    /// How many slots they take.
    pub(crate) fn used(&self) -> u32
        ensures used { result ≡ sum self.now.now }
        ensures most { result ≤ 65535 }
    {
        self.used
    }

    /// A message of this size comes behind the others.
    pub(crate) fn push(&mut self, size: u16) -> Result<(), NoMemory>
        requires used { sum self.old.now + size ≤ 65535 }
        requires len { length self.old.now < 65535 }
        ensures ok { OnOk result (self.new ≡ sized self.old.stood (self.old.now ++ size ∷ [])) }
        ensures err { OnErr result (self.new ≡ self.old) }
    {
        self.each.push_back(size)?;
        self.used += u32::from(size);
        Ok(())
    }

    /// How many slots the oldest takes.
    pub(crate) fn oldest(&self) -> u32
        requires { 0 < length self.now.now }
        ensures { result ≡ oldest_of self.now.now }
    {
        u32::from(self.each[self.gone])
    }

    /// The oldest leaves.
    pub(crate) fn drop_oldest(&mut self)
        requires { 0 < length self.old.now }
        ensures { self.new ≡ sized self.old.stood (drop 1 self.old.now) }
    {
        self.used -= u32::from(self.each[self.gone]);
        self.gone += 1;
    }

    /// All of them leave.
    pub(crate) fn clear(&mut self)
        ensures { self.new ≡ sized self.old.stood [] }
    {
        self.gone = self.each.len();
        self.used = 0;
    }

    /// The disk has what was decided.
    pub(crate) fn hand_over(&mut self)
        ensures { self.new ≡ sized self.old.now self.old.now }
    {
        drop_front(&mut self.each, self.gone);
        self.gone = 0;
        self.stood = self.each.len();
    }
}

// Takes so many off the front.
fn drop_front(each: &mut VecDeque<u16>, count: usize)
    requires { count ≤ length each.old.items }
    ensures { each.new.items ≡ drop count each.old.items }
{
    'front: for at in 0..count {
        each.pop_front();
    }
}
