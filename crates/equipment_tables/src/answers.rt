//! What the tables answer to the host's requests, and the bodies that they give.

ghost use Rattle.std.specs.Prelude.{◌≡◌, ◌≤◌, ◌++◌, ◌∷◌, [], ℕ, List, true, false, length, nat_lt, IfOk, IfSome, OnOk};
ghost use Rattle.std.specs.List.{filter_map, list_all};
ghost use Rattle.secs_items.specs.declared.item.Item.{Item};
ghost use Rattle.secs_items.specs.Checking.{check_of};
ghost use Rattle.secs_items.specs.Measures.{capped};
ghost use Rattle.secs_items.specs.Spelling.{shortest_spelling};
ghost use Rattle.trace_log.specs.Text.{printed_note};
ghost use Rattle.gem_alarms.specs.Alarms.{enabled_list_of, list_of};
ghost use Rattle.gem_remote.specs.Commands.{Param, ackc10_of, params_item};
ghost use Rattle.gem_shapes.specs.Answers.{code_item};
ghost use Rattle.spool_rule.specs.Reply.{reply_item};
ghost use Rattle.spool_rule.specs.Rule.{answer_of as rule_answer, rule_after};
ghost use Rattle.gem_vars.specs.Listing.{constant_names_of, constant_values_of, status_names_of, status_values_of};
ghost use Rattle.gem_remote.specs.declared.remote.Ackc10.TheVariants as ackc10;
ghost use Rattle.equipment_tables.specs.Answers.{IsWithin, ackc10_code, ackc5_code, alarm_item_of, answer_of, carried_lines, drack_code, eac_code, erack_code, established_of, event_item, identity_of, lines_of, lrack_code, remoted_of_item, report_item_of, shown_lines, spelled_body};
ghost use Rattle.equipment_tables.specs.Requests.{IsAsked, IsAskedOfTables, request_of};
ghost use Rattle.equipment_tables.specs.Tables.{state_of, tables_after, with_rule};

use crate::tables::Tables;
use gem_alarms::Ackc5;
use gem_remote::{Ackc10, Remoted, parameters_are_read};
use gem_reports::{Drack, Erack, Lrack, reports_go_by_what_stands};
use gem_shapes::{Request, TablesRequest, Text, code_item, identity_item, pair_item, read_request};
use gem_vars::Eac;
use gl_base::{NoMemory, Row};
use message_flow::Note;
use secs_items::{BodyCheck, EncodeFault, Item, ItemView, encode_into};
use spool_rule::RuleEntry;
use std::alloc::Global;
use trace_log::{carried_note, display_note};

/// A body that was asked for.
#[derive(Debug, Drop)]
pub enum Answer {
    /// The body's bytes.
    Body(Row<u8>),
    /// It would have more bytes than may be sent, or none spell it.
    TooLong,
}

/// What a message asks the equipment for; `None` exactly where the equipment takes no such primary, or where the body
/// isn't of its shape. `check` is the check of this body, made as it came.
pub fn request_of<'a>(
    alloc: Global,
    stream: u8,
    function: u8,
    body: &'a [u8],
    check: &BodyCheck,
) -> Result<Option<Request<'a>>, NoMemory>
    requires { check.now ≡ check_of body.now }
    ensures found { IfOk result (λ found. found ≡ request_of stream function body.now) }
    ensures asked { IfOk result (λ found. IfSome found IsAsked) }
{
    parameters_are_read();
    read_request(alloc, stream, function, body, check)
}

/// Whether a body of this length has more bytes than may be sent.
pub(crate) fn is_past(len: usize, max_body: u32) -> bool
    ensures { (item : Item) → len ≡ capped (length (shortest_spelling item)) →
        result ≡ nat_lt max_body (length (shortest_spelling item)) }
{
    len > max_body as usize
}

/// The elements of a slice of bytes are bytes.
pub fn are_bytes(bytes: &[u8])
    ensures { list_all (λ byte. nat_lt byte 256) bytes.now ≡ true }
{
    let _ = bytes;
}

/// The bytes of a body that isn't past the limit.
pub(crate) fn spelled(alloc: Global, item: &Item) -> Result<Answer, NoMemory>
    ensures { (max_body : ℕ) → nat_lt max_body (length (shortest_spelling item.now)) ≡ false →
        IfOk result (λ answer. answer ≡ spelled_body max_body item.now) }
{
    let mut body = Row::new(alloc);
    match encode_into(item, &mut body) {
        Ok(()) => {
            are_bytes(body.as_slice());
            Ok(Answer::Body(body))
        }
        Err(EncodeFault::NoMemory) => Err(NoMemory),
        Err(EncodeFault::TooLong { .. } | EncodeFault::TooDeep { .. }) => Ok(Answer::TooLong),
    }
}

/// The bytes of a body that was built: `TooLong` exactly where it has more than may be sent, or where none spell it.
#[tactic(auto, using(crate::proofs::Bodies::body_within))]
pub fn bounded(alloc: Global, item: &Item, max_body: u32) -> Result<Answer, NoMemory>
    ensures body { IfOk result (λ answer. answer ≡ spelled_body max_body item.now) }
    ensures within { IfOk result (IsWithin max_body) }
{
    if is_past(item.spelled_len(), max_body) {
        return Ok(Answer::TooLong);
    }
    spelled(alloc, item)
}

fn code_answer(alloc: Global, code: u8, max_body: u32) -> Result<Answer, NoMemory>
    ensures { IfOk result (λ answer. answer ≡ spelled_body max_body (code_item code)) }
{
    bounded(alloc, &code_item(alloc, code)?, max_body)
}

pub(crate) fn eac_code(eac: Eac) -> u8
    ensures { result ≡ eac_code eac }
{
    match eac {
        Eac::Done => 0,
        Eac::Unknown(_) => 1,
        Eac::OutOfRange(_) => 3,
    }
}

pub(crate) fn drack_code(drack: Drack) -> u8
    ensures { result ≡ drack_code drack }
{
    match drack {
        Drack::Done => 0,
        Drack::NoSpace => 1,
        Drack::Defined(_) => 3,
        Drack::UnknownVid(_) => 4,
    }
}

pub(crate) fn lrack_code(lrack: Lrack) -> u8
    ensures { result ≡ lrack_code lrack }
{
    match lrack {
        Lrack::Done => 0,
        Lrack::NoSpace => 1,
        Lrack::Linked(_) => 3,
        Lrack::UnknownCeid(_) => 4,
        Lrack::UnknownRptid(_) => 5,
    }
}

pub(crate) fn erack_code(erack: Erack) -> u8
    ensures { result ≡ erack_code erack }
{
    match erack {
        Erack::Done => 0,
        Erack::Unknown(_) => 1,
    }
}

pub(crate) fn ackc5_code(ackc5: Ackc5) -> u8
    ensures { result ≡ ackc5_code ackc5 }
{
    match ackc5 {
        Ackc5::Done => 0,
        Ackc5::Unknown(_) => 1,
    }
}

fn ackc10_code(ackc10: Ackc10) -> u8
    ensures { result ≡ ackc10_code ackc10 }
{
    match ackc10 {
        Ackc10::Accepted => 0,
        Ackc10::NoTerminal => 2,
    }
}

impl Tables {
    /// Answers a request of the host that a message asked of the tables, and does what it asks for.
    ///
    /// Of S2F41 it notes the command where HCACK is 0 or 4, and of S10F3 and S10F5 each text that a terminal displays.
    /// A request that is refused changes nothing.
    #[tactic(auto, using(crate::proofs::Bodies::body_within))]
    pub fn answer(
        &mut self,
        alloc: Global,
        request: &TablesRequest<'_>,
        is_local: bool,
        max_body: u32,
        notes: &mut Row<Note>,
    ) -> Result<Answer, NoMemory>
        requires asked { IsAskedOfTables request.now }
        requires limit { 244 ≤ max_body }
        ensures answer { IfOk result (λ answer. answer ≡
            answer_of (state_of self.old) is_local max_body request.now) }
        ensures within { IfOk result (IsWithin max_body) }
        ensures tables { OnOk result (state_of self.new ≡ tables_after request.now (state_of self.old)) }
        ensures notes { OnOk result (notes.new ≡
            notes.old ++ filter_map printed_note (lines_of (state_of self.old) is_local request.now)) }
    {
        self.replied(alloc, request, is_local, max_body, notes)
    }

    // As `answer` says it, a line a request.
    fn replied(
        &mut self,
        alloc: Global,
        request: &TablesRequest<'_>,
        is_local: bool,
        max_body: u32,
        notes: &mut Row<Note>,
    ) -> Result<Answer, NoMemory>
        requires asked { IsAskedOfTables request.now }
        requires limit { 244 ≤ max_body }
        ensures answer { IfOk result (λ answer. answer ≡
            answer_of (state_of self.old) is_local max_body request.now) }
        ensures tables { OnOk result (state_of self.new ≡ tables_after request.now (state_of self.old)) }
        ensures notes { OnOk result (notes.new ≡
            notes.old ++ filter_map printed_note (lines_of (state_of self.old) is_local request.now)) }
    {
        match request {
            TablesRequest::AreYouThere => self.identity(alloc, max_body),
            TablesRequest::StatusValues(ids) => self.status_values(alloc, ids.as_slice(), max_body),
            TablesRequest::StatusNames(ids) => self.status_names(alloc, ids.as_slice(), max_body),
            TablesRequest::ConstantValues(ids) => self.constant_values(
                alloc,
                ids.as_slice(),
                max_body,
            ),
            TablesRequest::SetConstants(list) => {
                code_answer(
                    alloc,
                    eac_code(self.set_constants(list.as_slice())),
                    max_body,
                )
            }
            TablesRequest::ConstantNames(ids) => self.constant_names(
                alloc,
                ids.as_slice(),
                max_body,
            ),
            TablesRequest::Define { list, .. } => {
                code_answer(
                    alloc,
                    drack_code(self.define(alloc, list.as_slice())?),
                    max_body,
                )
            }
            TablesRequest::Link { list, .. } => {
                code_answer(
                    alloc,
                    lrack_code(self.link(alloc, list.as_slice())?),
                    max_body,
                )
            }
            TablesRequest::EnableEvents { on, ceids } => {
                code_answer(
                    alloc,
                    erack_code(self.enable_events(*on, ceids.as_slice())),
                    max_body,
                )
            }
            TablesRequest::Announce { .. } => code_answer(alloc, 0, max_body),
            TablesRequest::Command { name, params } => {
                self.command(
                    alloc,
                    is_local,
                    name.bytes(),
                    params.view(),
                    max_body,
                    notes,
                )
            }
            TablesRequest::ReplaceRule(list) => self.rule_reply(alloc, list.as_slice(), max_body),
            TablesRequest::EnableAlarms { on, alid } => {
                code_answer(alloc, ackc5_code(self.enable_alarms(*on, *alid)), max_body)
            }
            TablesRequest::Alarms(ids) => self.alarms(alloc, ids.as_slice(), max_body),
            TablesRequest::EnabledAlarms => self.enabled_alarms(alloc, max_body),
            TablesRequest::EventReport(ceid) => self.event_body(alloc, *ceid, 0, max_body),
            TablesRequest::Report(rptid) => self.report_body(alloc, *rptid, max_body),
            TablesRequest::Display { tid, text } => {
                self.display(alloc, *tid, text.bytes(), max_body, notes)
            }
            TablesRequest::DisplayLines { tid, texts } => {
                self.display_lines(alloc, *tid, texts.as_slice(), max_body, notes)
            }
        }
    }

    /// The body of S1F2 and S1F13: MDLN and SOFTREV.
    pub fn identity(&self, alloc: Global, max_body: u32) -> Result<Answer, NoMemory>
        ensures body { IfOk result (λ answer. answer ≡ spelled_body max_body (identity_of (state_of self.now))) }
        ensures within { IfOk result (IsWithin max_body) }
    {
        let item = identity_item(alloc, self.mdln.as_slice(), self.softrev.as_slice())?;
        bounded(alloc, &item, max_body)
    }

    /// The body of S1F14 with COMMACK 0.
    pub fn established(&self, alloc: Global, max_body: u32) -> Result<Answer, NoMemory>
        ensures body { IfOk result (λ answer. answer ≡ spelled_body max_body (established_of (state_of self.now))) }
        ensures within { IfOk result (IsWithin max_body) }
    {
        let identity = identity_item(alloc, self.mdln.as_slice(), self.softrev.as_slice())?;
        let item = pair_item(alloc, code_item(alloc, 0)?, identity)?;
        bounded(alloc, &item, max_body)
    }

    /// The body of S5F1: ALCD, ALID and ALTX.
    pub fn alarm_body(&self, alloc: Global, alid: u32, max_body: u32) -> Result<Answer, NoMemory>
        ensures body { IfOk result (λ answer. answer ≡ spelled_body max_body (alarm_item_of (state_of self.now) alid)) }
        ensures within { IfOk result (IsWithin max_body) }
    {
        bounded(alloc, &self.alarms.body(alloc, alid)?, max_body)
    }

    /// The body of S6F11 and S6F16: DATAID, CEID and the linked reports, with the values as they are now.
    pub fn event_body(
        &self,
        alloc: Global,
        ceid: u32,
        dataid: u32,
        max_body: u32,
    ) -> Result<Answer, NoMemory>
        ensures body { IfOk result (λ answer. answer ≡
            spelled_body max_body (event_item (state_of self.now) ceid dataid)) }
        ensures within { IfOk result (IsWithin max_body) }
    {
        if is_past(self.event_len(ceid), max_body) {
            return Ok(Answer::TooLong);
        }
        spelled(alloc, &self.event_item(alloc, ceid, dataid)?)
    }

    fn event_len(&self, ceid: u32) -> usize
        ensures { (dataid : ℕ) →
            result ≡ capped (length (shortest_spelling (event_item (state_of self.now) ceid dataid))) }
    {
        reports_go_by_what_stands();
        self.reports.event_body_len(ceid, &self.vars)
    }

    fn event_item(&self, alloc: Global, ceid: u32, dataid: u32) -> Result<Item, NoMemory>
        ensures { IfOk result (λ item. item ≡ event_item (state_of self.now) ceid dataid) }
    {
        reports_go_by_what_stands();
        self.reports.event_body(alloc, ceid, dataid, &self.vars)
    }

    fn report_body(&self, alloc: Global, rptid: u32, max_body: u32) -> Result<Answer, NoMemory>
        ensures { IfOk result (λ answer. answer ≡
            spelled_body max_body (report_item_of (state_of self.now) rptid)) }
    {
        if is_past(self.report_len(rptid), max_body) {
            return Ok(Answer::TooLong);
        }
        spelled(alloc, &self.report_item(alloc, rptid)?)
    }

    fn report_len(&self, rptid: u32) -> usize
        ensures { result ≡ capped (length (shortest_spelling (report_item_of (state_of self.now) rptid))) }
    {
        reports_go_by_what_stands();
        self.reports.report_body_len(rptid, &self.vars)
    }

    fn report_item(&self, alloc: Global, rptid: u32) -> Result<Item, NoMemory>
        ensures { IfOk result (λ item. item ≡ report_item_of (state_of self.now) rptid) }
    {
        reports_go_by_what_stands();
        self.reports.report_body(alloc, rptid, &self.vars)
    }

    fn status_values(&self, alloc: Global, ids: &[u32], max_body: u32) -> Result<Answer, NoMemory>
        ensures { IfOk result (λ answer. answer ≡ spelled_body max_body (status_values_of self.now.vars ids.now)) }
    {
        if is_past(self.vars.status_values_len(ids), max_body) {
            return Ok(Answer::TooLong);
        }
        spelled(alloc, &self.vars.status_values(alloc, ids)?)
    }

    fn status_names(&self, alloc: Global, ids: &[u32], max_body: u32) -> Result<Answer, NoMemory>
        ensures { IfOk result (λ answer. answer ≡ spelled_body max_body (status_names_of self.now.vars ids.now)) }
    {
        if is_past(self.vars.status_names_len(ids), max_body) {
            return Ok(Answer::TooLong);
        }
        spelled(alloc, &self.vars.status_names(alloc, ids)?)
    }

    fn constant_values(&self, alloc: Global, ids: &[u32], max_body: u32) -> Result<Answer, NoMemory>
        ensures { IfOk result (λ answer. answer ≡ spelled_body max_body (constant_values_of self.now.vars ids.now)) }
    {
        if is_past(self.vars.constant_values_len(ids), max_body) {
            return Ok(Answer::TooLong);
        }
        spelled(alloc, &self.vars.constant_values(alloc, ids)?)
    }

    fn constant_names(&self, alloc: Global, ids: &[u32], max_body: u32) -> Result<Answer, NoMemory>
        ensures { IfOk result (λ answer. answer ≡ spelled_body max_body (constant_names_of self.now.vars ids.now)) }
    {
        if is_past(self.vars.constant_names_len(ids), max_body) {
            return Ok(Answer::TooLong);
        }
        spelled(alloc, &self.vars.constant_names(alloc, ids)?)
    }

    fn alarms(&self, alloc: Global, ids: &[u32], max_body: u32) -> Result<Answer, NoMemory>
        ensures { IfOk result (λ answer. answer ≡ spelled_body max_body (list_of self.now.alarms ids.now)) }
    {
        if is_past(self.alarms.list_len(ids), max_body) {
            return Ok(Answer::TooLong);
        }
        spelled(alloc, &self.alarms.list(alloc, ids)?)
    }

    fn enabled_alarms(&self, alloc: Global, max_body: u32) -> Result<Answer, NoMemory>
        ensures { IfOk result (λ answer. answer ≡ spelled_body max_body (enabled_list_of self.now.alarms)) }
    {
        if is_past(self.alarms.enabled_list_len(), max_body) {
            return Ok(Answer::TooLong);
        }
        spelled(alloc, &self.alarms.enabled_list(alloc)?)
    }

    /// S2F43.
    fn rule_reply(
        &mut self,
        alloc: Global,
        list: &[RuleEntry],
        max_body: u32,
    ) -> Result<Answer, NoMemory>
        ensures answer { IfOk result (λ answer. answer ≡ spelled_body max_body (reply_item (rule_answer list.now))) }
        ensures tables { OnOk result (state_of self.new ≡
            with_rule (rule_after list.now (state_of self.old).rule) (state_of self.old)) }
    {
        let answer = self.replace_rule(alloc, list)?;
        bounded(alloc, &answer.reply(alloc)?, max_body)
    }

    /// S2F41.
    #[tactic(auto, using(crate::proofs::RemoteAnswers::too_long_carries_none))]
    fn command(
        &self,
        alloc: Global,
        is_local: bool,
        name: &[u8],
        params: &ItemView<'_>,
        max_body: u32,
        notes: &mut Row<Note>,
    ) -> Result<Answer, NoMemory>
        requires asked { (all : List Param) × (params.now.item ≡ params_item all) }
        requires limit { 244 ≤ max_body }
        ensures answer { IfOk result (λ answer. answer ≡ spelled_body max_body
            (remoted_of_item (state_of self.now) is_local name.now params.now.item).reply) }
        ensures notes { OnOk result (notes.new ≡ notes.old ++ filter_map printed_note
            (carried_lines (remoted_of_item (state_of self.now) is_local name.now params.now.item).hcack name.now)) }
    {
        if is_past(self.reply_len(alloc, is_local, name, params)?, max_body) {
            return Ok(Answer::TooLong);
        }
        let remoted = self.remoted(alloc, is_local, name, params)?;
        note_carried(alloc, remoted.hcack, name, notes)?;
        spelled(alloc, &remoted.reply)
    }

    fn reply_len(
        &self,
        alloc: Global,
        is_local: bool,
        name: &[u8],
        params: &ItemView<'_>,
    ) -> Result<usize, NoMemory>
        requires { (all : List Param) × (params.now.item ≡ params_item all) }
        ensures { IfOk result (λ len. len ≡ capped (length (shortest_spelling
            (remoted_of_item (state_of self.now) is_local name.now params.now.item).reply))) }
    {
        self.remote.reply_len(alloc, is_local, name, params)
    }

    fn remoted(
        &self,
        alloc: Global,
        is_local: bool,
        name: &[u8],
        params: &ItemView<'_>,
    ) -> Result<Remoted, NoMemory>
        requires { (all : List Param) × (params.now.item ≡ params_item all) }
        ensures { IfOk result (λ remoted. remoted ≡
            remoted_of_item (state_of self.now) is_local name.now params.now.item) }
    {
        self.remote.command(alloc, is_local, name, params)
    }

    /// S10F3.
    fn display(
        &self,
        alloc: Global,
        tid: u8,
        text: &[u8],
        max_body: u32,
        notes: &mut Row<Note>,
    ) -> Result<Answer, NoMemory>
        ensures answer { IfOk result (λ answer. answer ≡
            spelled_body max_body (code_item (ackc10_code (ackc10_of self.now.remote tid)))) }
        ensures notes { OnOk result (notes.new ≡ notes.old
            ++ filter_map printed_note (shown_lines (ackc10_of self.now.remote tid) tid (text.now ∷ []))) }
    {
        let ackc10 = self.remote.display(tid);
        if let Ackc10::Accepted = ackc10 {
            notes.push(display_note(alloc, tid, text)?)?;
        }
        code_answer(alloc, ackc10_code(ackc10), max_body)
    }

    /// S10F5.
    fn display_lines(
        &self,
        alloc: Global,
        tid: u8,
        texts: &[Text<'_>],
        max_body: u32,
        notes: &mut Row<Note>,
    ) -> Result<Answer, NoMemory>
        ensures answer { IfOk result (λ answer. answer ≡
            spelled_body max_body (code_item (ackc10_code (ackc10_of self.now.remote tid)))) }
        ensures notes { OnOk result (notes.new ≡ notes.old
            ++ filter_map printed_note (shown_lines (ackc10_of self.now.remote tid) tid texts.now)) }
    {
        let ackc10 = self.remote.display(tid);
        if let Ackc10::Accepted = ackc10 {
            note_texts(alloc, tid, texts, notes)?;
        }
        code_answer(alloc, ackc10_code(ackc10), max_body)
    }
}

// Notes a remote command that is accepted.
fn note_carried(
    alloc: Global,
    hcack: u8,
    name: &[u8],
    notes: &mut Row<Note>,
) -> Result<(), NoMemory>
    ensures { OnOk result (notes.new ≡ notes.old ++ filter_map printed_note (carried_lines hcack name.now)) }
{
    if hcack == 0 || hcack == 4 {
        notes.push(carried_note(alloc, name)?)?;
    }
    Ok(())
}

// Notes each text that a terminal displays.
fn note_texts(
    alloc: Global,
    tid: u8,
    texts: &[Text<'_>],
    notes: &mut Row<Note>,
) -> Result<(), NoMemory>
    ensures { OnOk result (notes.new ≡
        notes.old ++ filter_map printed_note (shown_lines ackc10.Accepted tid texts.now)) }
{
    for text in texts {
        notes.push(display_note(alloc, tid, text.bytes())?)?;
    }
    Ok(())
}
