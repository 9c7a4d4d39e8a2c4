//! What the objects in memory have in common: which of their calls are to fail, and the counts of calls and faults.

ghost use Rattle.std.specs.Prelude.{◌≡◌, ◌≤◌, false, true};

use crate::row::Row;

/// The calls of a memory object, numbered from 1, of which the listed ones are to fail.
#[derive(Debug, Drop)]
pub struct Calls {
    pub fails: Row<u32>,
    pub count: u64,
    pub faults: u64,
}

impl Calls {
    ghost use Rattle.gl_base.specs.Calls.{fails_next, is_safe, no_calls, with_call, with_fault};
    ghost use Rattle.gl_base.specs.Faults.{Rose};

    /// No call yet.
    pub fn new(fails: Row<u32>) -> Calls
        ensures { result ≡ no_calls fails }
    {
        Calls {
            fails,
            count: 0,
            faults: 0,
        }
    }

    /// Counts a call, and tells whether it is one that fails.
    pub fn begin(&mut self) -> bool
        ensures fails { result ≡ fails_next self.old }
        ensures safe { is_safe self.old ≡ true → result ≡ false }
        ensures counted { self.new ≡ with_call self.old }
    {
        self.count = self.count.saturating_add(1);
        let call = self.count;
        self.fails
            .as_slice()
            .iter()
            .any(|number| u64::from(*number) == call)
    }

    /// Counts a fault.
    pub fn fail(&mut self)
        ensures counted { self.new ≡ with_fault self.old }
        ensures rose { Rose self.old.faults self.new.faults }
    {
        self.faults = self.faults.saturating_add(1);
    }
}
