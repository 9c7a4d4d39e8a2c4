//! What the tables would answer to a change of the setup.

ghost use Rattle.std.specs.Prelude.{◌≡◌, IfOk};
ghost use Rattle.gem_reports.specs.Reporting.{drack_in, erack_in, lrack_in};
ghost use Rattle.equipment_tables.specs.Setup.{accepts_request, is_replaced};
ghost use Rattle.equipment_tables.specs.Tables.{state_of, value_of};

use crate::answers::{ackc5_code, drack_code, eac_code, erack_code, lrack_code};
use crate::tables::Tables;
use gem_reports::{Drack, Erack, Lrack, reports_go_by_what_stands};
use gem_shapes::{Definition, Linking, TablesRequest};
use gl_base::NoMemory;
use spool_rule::{RuleAnswer, SpoolRule};
use std::alloc::Global;

impl Tables {
    /// Whether a request changes the setup and would be accepted: it is one of S2F15, S2F33, S2F35, S2F37, S2F43 and
    /// S5F3, and `answer` would give it the code 0. It changes nothing.
    pub fn accepts(&self, alloc: Global, request: &TablesRequest<'_>) -> Result<bool, NoMemory>
        ensures { IfOk result (λ accepted. accepted ≡ accepts_request (state_of self.now) request.now) }
    {
        Ok(match request {
            TablesRequest::SetConstants(list) => {
                eac_code(self.vars.judge_constants(list.as_slice())) == 0
            }
            TablesRequest::Define { list, .. } => {
                drack_code(self.judge_define(alloc, list.as_slice())?) == 0
            }
            TablesRequest::Link { list, .. } => {
                lrack_code(self.judge_link(alloc, list.as_slice())?) == 0
            }
            TablesRequest::EnableEvents { ceids, .. } => {
                erack_code(self.judge_events(ceids.as_slice())) == 0
            }
            TablesRequest::ReplaceRule(list) => {
                is_replaced(&SpoolRule::judge(alloc, list.as_slice())?)
            }
            TablesRequest::EnableAlarms { alid, .. } => {
                ackc5_code(self.alarms.judge_enable(*alid)) == 0
            }
            _ => false,
        })
    }

    // What S2F33 would be answered, as [`Reports::judge_define`] says it.
    fn judge_define(&self, alloc: Global, list: &[Definition]) -> Result<Drack, NoMemory>
        ensures { IfOk result (λ drack. drack ≡
            drack_in (value_of (state_of self.now)) (state_of self.now).reports list.now) }
    {
        reports_go_by_what_stands();
        self.reports.judge_define(alloc, &self.vars, list)
    }

    // What S2F35 would be answered, as [`Reports::judge_link`] says it.
    fn judge_link(&self, alloc: Global, list: &[Linking]) -> Result<Lrack, NoMemory>
        ensures { IfOk result (λ lrack. lrack ≡ lrack_in (state_of self.now).reports list.now) }
    {
        reports_go_by_what_stands();
        self.reports.judge_link(alloc, list)
    }

    // What S2F37 would be answered, as [`Reports::judge_enable`] says it.
    fn judge_events(&self, ceids: &[u32]) -> Erack
        ensures { result ≡ erack_in (state_of self.now).reports ceids.now }
    {
        reports_go_by_what_stands();
        self.reports.judge_enable(ceids)
    }
}

fn is_replaced(answer: &RuleAnswer) -> bool
    ensures { result ≡ is_replaced answer.now }
{
    match answer {
        RuleAnswer::Replaced => true,
        RuleAnswer::Rejected(_) => false,
    }
}
