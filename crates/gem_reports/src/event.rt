//! One event as it stands: enabled or not, and with the reports that are linked to it.

ghost use Rattle.std.specs.Prelude.{◌≡◌, ℕ, IfOk};
ghost use Rattle.gem_reports.specs.Events.{without};

use gl_base::{NoMemory, Row};
use indexmap::IndexSet;
use std::alloc::Global;

/// An event of the plan as it stands.
#[derive(Debug, Drop)]
pub(crate) struct Event {
    pub(crate) is_enabled: bool,
    /// The linked reports.
    pub(crate) rptids: Row<u32>,
}

impl Event {
    /// A copy that has no links to these reports.
    pub(crate) fn without(&self, alloc: Global, rptids: &IndexSet<u32>) -> Result<Event, NoMemory>
        ensures { IfOk result (λ event. (ceid : ℕ) → event ≡ without rptids.now.keys ceid self.now) }
    {
        let mut kept = Row::new(alloc);
        for rptid in self.rptids.as_slice() {
            if !rptids.contains(rptid) {
                kept.push(*rptid)?;
            }
        }
        Ok(Event {
            is_enabled: self.is_enabled,
            rptids: kept,
        })
    }
}
