//! The bodies of events and reports, as the variables stand at the moment.

ghost use Rattle.std.specs.Prelude.{◌≡◌, ◌++◌, ℕ, List, [], map, nat_eq, IfOk, OnOk};
ghost use Rattle.std.specs.List.{cons_option};
ghost use Rattle.std.specs.Option.{unwrap_or};
ghost use Rattle.gem_vars.specs.Tables.{value_in};
ghost use Rattle.gem_reports.specs.Bodies.{event_body_at, event_body_of, report_body_at, report_body_of, report_item, values_item};
ghost use Rattle.gem_reports.specs.Events.{rptids_in};
ghost use Rattle.gem_reports.specs.History.{ReportEntry};
ghost use Rattle.gem_reports.specs.Tables.{StandsFor, vids_in};

use crate::reports::Reports;
use crate::standing::Standing;
use gem_vars::Vars;
use gl_base::{NoMemory, Row};
use secs_items::Item;
use std::alloc::Global;

impl Reports {
    /// The body of S6F11 and S6F16: DATAID, CEID and the event's reports in the order of their links, each with the
    /// values that its variables have now. Of an event without links, and of one that the plan doesn't have, there are
    /// no reports.
    pub fn event_body(
        &self,
        alloc: Global,
        ceid: u32,
        dataid: u32,
        vars: &Vars,
    ) -> Result<Item, NoMemory>
        ensures { (events : List ℕ) (past : List ReportEntry) → StandsFor self.now events past →
            IfOk result (λ body. body ≡ event_body_at (value_in vars.now) events past ceid dataid) }
    {
        self.kept_event_body(alloc, ceid, dataid, vars)
    }

    /// The body of S6F20: the values that a report's variables have now; an empty list where it doesn't stand.
    pub fn report_body(&self, alloc: Global, rptid: u32, vars: &Vars) -> Result<Item, NoMemory>
        ensures { (events : List ℕ) (past : List ReportEntry) → StandsFor self.now events past →
            IfOk result (λ body. body ≡ report_body_at (value_in vars.now) past rptid) }
    {
        self.standing.body(alloc, rptid, vars)
    }

    fn kept_event_body(
        &self,
        alloc: Global,
        ceid: u32,
        dataid: u32,
        vars: &Vars,
    ) -> Result<Item, NoMemory>
        ensures { IfOk result (λ body. body ≡ event_body_of (value_in vars.now)
            (vids_in self.now.reports)
            (rptids_in self.now.events ceid) ceid dataid) }
    {
        let mut items = Row::new(alloc);
        items.push(Item::number(alloc, dataid)?)?;
        items.push(Item::number(alloc, ceid)?)?;
        items.push(Item::L(
            self.standing
                .report_items(alloc, self.events.links(ceid), vars)?,
        ))?;
        Ok(Item::L(items))
    }
}

impl Standing {
    fn body(&self, alloc: Global, rptid: u32, vars: &Vars) -> Result<Item, NoMemory>
        ensures { IfOk result (λ body. body ≡ report_body_of (value_in vars.now) (vids_in self.now rptid)) }
    {
        values_item(alloc, self.vids(rptid), vars)
    }

    fn report_item(&self, alloc: Global, rptid: u32, vars: &Vars) -> Result<Item, NoMemory>
        ensures { IfOk result (λ item. item ≡ report_item (value_in vars.now) (vids_in self.now) rptid) }
    {
        let mut items = Row::new(alloc);
        items.push(Item::number(alloc, rptid)?)?;
        items.push(self.body(alloc, rptid, vars)?)?;
        Ok(Item::L(items))
    }

    fn report_items(
        &self,
        alloc: Global,
        rptids: &[u32],
        vars: &Vars,
    ) -> Result<Row<Item>, NoMemory>
        ensures { IfOk result (λ items. items ≡
            map (report_item (value_in vars.now) (vids_in self.now)) rptids.now) }
    {
        let mut items = Row::new(alloc);
        for rptid in rptids {
            items.push(self.report_item(alloc, *rptid, vars)?)?;
        }
        Ok(items)
    }
}

fn values_item(alloc: Global, vids: &[u32], vars: &Vars) -> Result<Item, NoMemory>
    ensures { IfOk result (λ item. item ≡ values_item (value_in vars.now) vids.now) }
{
    let mut items = Row::new(alloc);
    for vid in vids {
        push_value(alloc, &mut items, *vid, vars)?;
    }
    Ok(Item::L(items))
}

// Puts a variable's value at the end, if there is the variable.
fn push_value(alloc: Global, items: &mut Row<Item>, vid: u32, vars: &Vars) -> Result<(), NoMemory>
    ensures { OnOk result (items.new ≡ items.old ++ cons_option (value_in vars.now vid) []) }
{
    match vars.value(vid) {
        Some(value) => items.push(value.copy(alloc)?),
        None => Ok(()),
    }
}
