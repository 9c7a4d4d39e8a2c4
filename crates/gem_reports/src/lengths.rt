//! How long the bodies of events and reports are, without building them.

ghost use Rattle.std.specs.Prelude.{◌≡◌, ◌≤◌, ℕ, List, [], length, map, nat_eq};
ghost use Rattle.std.specs.List.{cons_option, flat_map};
ghost use Rattle.secs_items.specs.Measures.{capped};
ghost use Rattle.secs_items.specs.Spelling.{shortest_spelling};
ghost use Rattle.gem_vars.specs.Tables.{value_in};
ghost use Rattle.gem_reports.specs.Bodies.{event_body_at, report_body_at, report_body_of, report_item, values_item};
ghost use Rattle.gem_reports.specs.History.{ReportEntry};
ghost use Rattle.gem_reports.specs.Tables.{StandsFor, vids_in};

use crate::reports::Reports;
use crate::standing::Standing;
use gem_vars::Vars;
use secs_items::list_len;

impl Reports {
    /// How many bytes the body of [`Reports::event_body`] has, or `usize::MAX` where it has more. It takes no memory.
    pub fn event_body_len(&self, ceid: u32, vars: &Vars) -> usize
        ensures { (events : List ℕ) (past : List ReportEntry) → StandsFor self.now events past → (dataid : ℕ) →
            result ≡ capped (length (shortest_spelling
            (event_body_at (value_in vars.now) events past ceid dataid))) }
    {
        let rptids = self.events.links(ceid);
        let reports = list_len(rptids.len(), self.standing.report_items_len(rptids, vars));
        list_len(3, reports.saturating_add(12))
    }

    /// How many bytes the body of [`Reports::report_body`] has, or `usize::MAX` where it has more. It takes no memory.
    pub fn report_body_len(&self, rptid: u32, vars: &Vars) -> usize
        ensures { (events : List ℕ) (past : List ReportEntry) → StandsFor self.now events past →
            result ≡ capped (length (shortest_spelling (report_body_at (value_in vars.now) past rptid))) }
    {
        self.standing.body_len(rptid, vars)
    }
}

impl Standing {
    fn body_len(&self, rptid: u32, vars: &Vars) -> usize
        ensures { result ≡ capped (length (shortest_spelling
            (report_body_of (value_in vars.now) (vids_in self.now rptid)))) }
    {
        values_len(self.vids(rptid), vars)
    }

    fn report_items_len(&self, rptids: &[u32], vars: &Vars) -> usize
        ensures { result ≡ capped (length (flat_map shortest_spelling
            (map (report_item (value_in vars.now) (vids_in self.now)) rptids.now))) }
    {
        let mut len: usize = 0;
        for rptid in rptids {
            len = len.saturating_add(self.report_item_len(*rptid, vars));
        }
        len
    }

    fn report_item_len(&self, rptid: u32, vars: &Vars) -> usize
        ensures { result ≡ capped (length (shortest_spelling
            (report_item (value_in vars.now) (vids_in self.now) rptid))) }
    {
        list_len(2, self.body_len(rptid, vars).saturating_add(6))
    }
}

fn values_len(vids: &[u32], vars: &Vars) -> usize
    ensures { result ≡ capped (length (shortest_spelling (values_item (value_in vars.now) vids.now))) }
{
    let mut count = 0;
    let mut len: usize = 0;
    for vid in vids {
        let (one, bytes) = value_size(*vid, vars);
        count += one;
        len = len.saturating_add(bytes);
    }
    list_len(count, len)
}

// How many values a VID gives, one or none, and how many bytes they have.
fn value_size(vid: u32, vars: &Vars) -> (usize, usize)
    ensures few { result.0 ≤ 1 }
    ensures count { result.0 ≡ length (cons_option (value_in vars.now vid) []) }
    ensures len { result.1 ≡ capped (length (flat_map shortest_spelling (cons_option (value_in vars.now vid) []))) }
{
    match vars.value(vid) {
        Some(value) => (1, value.spelled_len()),
        None => (0, 0),
    }
}
