//! The traces that run, as S2F23 sets them and each step samples them.

ghost use Rattle.std.specs.Prelude.{◌≡◌, ◌≢◌, ◌^◌, ◌<◌, ◌≤◌, [], ◌∷◌, ◌++◌, All, length, map, vec_capacity, vec_len, IfOk, OnErr, OnOk};
ghost use Rattle.gem_trace.specs.declared.request.Tiaack.TheVariants as tiaack;
ghost use Rattle.gem_trace.specs.Kept.{IsKept, bodies_read, seen, settled, with_reading};
ghost use Rattle.gem_trace.specs.Settings.{answer_of, first_unknown, is_bad_group, is_full_for, tiaack_of};
ghost use Rattle.gem_trace.specs.Traces.{after_samples, after_setting, bodies_due, deadline, first_trace, others};

use crate::period::period_of;
use crate::request::{Tiaack, TraceRequest};
use crate::trace::Trace;
use gem_vars::Vars;
use gl_base::{NoMemory, Row};
use secs_items::Item;
use std::alloc::Global;
use std::marker::Model;

// The most traces that run.
const MOST: usize = 16;

// The most variables of a sample.
const MOST_VARIABLES: usize = 256;

// The most values of an S6F1.
const MOST_VALUES: usize = 4_096;

/// The traces that run, in the order in which they were set. Of one TRID at most one runs.
#[derive(Drop)]
pub struct Traces {
    running: Vec<Trace>,
}

impl Model for Traces {
    ghost use Rattle.std.specs.Prelude.{ℕ, List, All, map, refl};
    ghost use Rattle.std.specs.Coded.{code_by, coded×, coded_list, coded_ℕ};
    ghost use Rattle.secs_items.specs.contracts.item.Item as item;
    ghost use Rattle.secs_items.specs.declared.item.Item.{Item};
    ghost use Rattle.gem_trace.specs.Kept.{IsKept, seen};
    ghost use Rattle.gem_trace.specs.Traces.{Running};

    ghost Value = { List Running };

    ghost coded = { coded_list (code_by
        (ℕ × (ℕ × (ℕ × (ℕ × (List ℕ × (ℕ × (ℕ × List Item)))))))
        (coded× coded_ℕ (coded× coded_ℕ (coded× coded_ℕ (coded× coded_ℕ (coded× (coded_list coded_ℕ)
        (coded× coded_ℕ (coded× coded_ℕ (coded_list item.the_row.coded))))))))
        (λ t. (t.trid, (t.period, (t.total, (t.group, (t.svids, (t.due, (t.taken, t.values))))))))
        (λ p. record {
          trid = p.0;
          period = p.1.0;
          total = p.1.1.0;
          group = p.1.1.1.0;
          svids = p.1.1.1.1.0;
          due = p.1.1.1.1.1.0;
          taken = p.1.1.1.1.1.1.0;
          values = p.1.1.1.1.1.1.1;
        })
        (λ _. refl)) };

    ghost view = { λ inside. map seen inside.running.items };

    ghost invariant = { λ inside. All IsKept inside.running.items };
}

impl Traces {
    /// No trace runs. It takes no memory yet.
    pub fn new(alloc: Global) -> Traces
        ensures { result ≡ [] }
    {
        Traces {
            running: Vec::new(alloc),
        }
    }

    /// S2F23, taken at this moment, in milliseconds.
    ///
    /// A total of 0 ends the trace of that TRID, where one runs, and is `Done`, whatever else the request says.
    /// Otherwise the first of these that holds: `BadPeriod` where DSPER isn't six digits hhmmss or eight hhmmsscc, its
    /// minutes or seconds pass 59, or it is shorter than 100 ms; `BadGroup` where the group is 0, or larger than the
    /// total, or the group times the number of SVIDs passes 4,096; `TooMany` where there are more than 256 SVIDs;
    /// `Unknown` with the first SVID that is no variable; `NoMore` where 16 traces of other TRIDs run; else `Done`, and
    /// the trace runs, behind all others, in place of one of the same TRID. A refusal changes nothing, and neither does
    /// want of memory.
    pub fn set(
        &mut self,
        alloc: Global,
        vars: &Vars,
        request: &TraceRequest,
        now: u64,
    ) -> Result<Tiaack, NoMemory>
        requires { now < 2 ^ 62 }
        ensures answer { IfOk result (λ answer. answer ≡ tiaack_of vars.now self.old request.now) }
        ensures taken { IfOk result (λ answer.
            answer ≡ tiaack.Done → self.new ≡ after_setting request.now now self.old) }
        ensures refused { IfOk result (λ answer. answer ≢ tiaack.Done → self.new ≡ self.old) }
        ensures err { OnErr result (self.new ≡ self.old) }
    {
        if request.total == 0 {
            end(&mut self.running, request.trid);
            return Ok(Tiaack::Done);
        }
        let Some(period) = period_of(request.dsper.as_slice()) else {
            return Ok(Tiaack::BadPeriod);
        };
        let answer = self.answer(vars, request);
        if let Tiaack::Done = answer {
            start(&mut self.running, alloc, request, now, period)?;
        }
        Ok(answer)
    }

    /// Takes a sample of each trace that is due at this moment, in the order in which they were set: the values of its
    /// variables as they are now. It gives the bodies of the S6F1 that are due with these samples, in that order, and
    /// ends the traces whose last sample it took. Where memory runs out, nothing changes.
    pub fn sample(&mut self, alloc: Global, vars: &Vars, now: u64) -> Result<Row<Item>, NoMemory>
        requires { now < 2 ^ 62 }
        ensures bodies { IfOk result (λ bodies. bodies ≡ bodies_due vars.now now self.old) }
        ensures ok { OnOk result (self.new ≡ after_samples vars.now now self.old) }
        ensures err { OnErr result (self.new ≡ self.old) }
    {
        take_samples(&mut self.running, alloc, vars, now)
    }

    /// The least moment at which a sample is due. `None` exactly where no trace runs.
    pub fn deadline(&self) -> Option<u64>
        ensures { result ≡ deadline self.now }
    {
        least_due(self.running.as_slice())
    }

    // The answer to a request with a total and a period.
    fn answer(&self, vars: &Vars, request: &TraceRequest) -> Tiaack
        ensures { result ≡ answer_of vars.now self.now request.now }
    {
        if is_bad_group(request) {
            return Tiaack::BadGroup;
        }
        if MOST_VARIABLES < request.svids.len() {
            return Tiaack::TooMany;
        }
        if let Some(svid) = first_unknown(vars, request.svids.as_slice()) {
            return Tiaack::Unknown(svid);
        }
        if self.is_full_for(request.trid) {
            Tiaack::NoMore
        } else {
            Tiaack::Done
        }
    }

    fn is_full_for(&self, trid: u32) -> bool
        ensures { result ≡ is_full_for trid self.now }
    {
        MOST <= count_others(self.running.as_slice(), trid)
    }
}

// Ends the trace of this TRID, where one runs.
fn end(running: &mut Vec<Trace>, trid: u32)
    requires { All IsKept running.old.items }
    ensures seen { map seen running.new.items ≡ others trid (map seen running.old.items) }
    ensures keeps { All IsKept running.new.items }
    ensures bound { vec_len running.new ≤ vec_len running.old }
    ensures capacity { vec_capacity running.new ≡ vec_capacity running.old }
{
    running.retain(|trace| trace.is_other(trid));
}

// Lets the trace of a request run, in place of one of its TRID.
fn start(
    running: &mut Vec<Trace>,
    alloc: Global,
    request: &TraceRequest,
    now: u64,
    period: u64,
) -> Result<(), NoMemory>
    requires now { now < 2 ^ 62 }
    requires period { period < 2 ^ 62 }
    requires total { 0 < request.now.total }
    requires group { 0 < request.now.group }
    requires kept { All IsKept running.old.items }
    ensures ok { OnOk result (map seen running.new.items
        ≡ others request.now.trid (map seen running.old.items) ++ first_trace request.now now period ∷ []) }
    ensures err { OnErr result (map seen running.new.items ≡ map seen running.old.items) }
    ensures keeps { All IsKept running.new.items }
{
    let trace = Trace::first(alloc, request, now, period)?;
    running.reserve(1)?;
    end(running, request.trid);
    running.push_reserved(trace);
    Ok(())
}

// The least moment at which one of these has a sample due.
fn least_due(running: &[Trace]) -> Option<u64>
    ensures { result ≡ deadline (map seen running.now) }
{
    running.iter().map(|trace| trace.due).min()
}

// How many traces of other TRIDs run.
#[tactic(auto, using(crate::proofs::Passes::counted))]
fn count_others(running: &[Trace], trid: u32) -> usize
    ensures { result ≡ length (others trid (map seen running.now)) }
{
    running.iter().filter(|trace| trace.is_other(trid)).count()
}

// Takes all samples that are due, or where memory runs out none, as far as is seen.
fn take_samples(
    running: &mut Vec<Trace>,
    alloc: Global,
    vars: &Vars,
    now: u64,
) -> Result<Row<Item>, NoMemory>
    requires now { now < 2 ^ 62 }
    requires kept { All IsKept running.old.items }
    ensures bodies { IfOk result (λ bodies. bodies ≡ bodies_due vars.now now (map seen running.old.items)) }
    ensures ok { OnOk result (map seen running.new.items ≡ after_samples vars.now now (map seen running.old.items)) }
    ensures err { OnErr result (map seen running.new.items ≡ map seen running.old.items) }
    ensures keeps { All IsKept running.new.items }
{
    read_each(running.as_mut_slice(), alloc, vars, now)?;
    let room = Vec::with_capacity(alloc, count_bodies(running.as_slice(), now))?;
    let bodies = settle_each(running.as_mut_slice(), alloc, now, room);
    running.retain(|trace| trace.goes_on());
    Ok(bodies)
}

// Reads the sample of each trace that is due.
fn read_each(running: &mut [Trace], alloc: Global, vars: &Vars, now: u64) -> Result<(), NoMemory>
    requires { All IsKept running.old }
    ensures ok { OnOk result (running.new ≡ map (with_reading vars.now now) running.old) }
    ensures unseen { map seen running.new ≡ map seen running.old }
    ensures keeps { All IsKept running.new }
{
    for i in 0..running.len() {
        running[i].read(alloc, vars, now)?;
    }
    Ok(())
}

// How many S6F1 the samples that were read bring.
#[tactic(auto, using(crate::proofs::Passes::bodies_counted))]
fn count_bodies(running: &[Trace], now: u64) -> usize
    ensures { result ≡ length (bodies_read now running.now) }
{
    running
        .iter()
        .filter(|trace| trace.brings_body(now))
        .count()
}

// Takes each sample that was read, and gives the bodies of the S6F1 that are due, for which there is room.
fn settle_each(running: &mut [Trace], alloc: Global, now: u64, room: Vec<Item>) -> Row<Item>
    requires now { now < 2 ^ 62 }
    requires kept { All IsKept running.old }
    requires empty { room.items ≡ [] }
    requires room { length (bodies_read now running.old) ≤ vec_capacity room }
    ensures traces { running.new ≡ map (settled now) running.old }
    ensures bodies { result ≡ bodies_read now running.old }
{
    let mut bodies = room;
    for i in 0..running.len() {
        running[i].settle(alloc, now, &mut bodies);
    }
    Row::from_vec(bodies)
}

fn is_bad_group(request: &TraceRequest) -> bool
    ensures { result ≡ is_bad_group request.now }
{
    request.group == 0
        || request.total < request.group
        || MOST_VALUES < (request.group as usize).saturating_mul(request.svids.len())
}

// The first of these that is no variable.
fn first_unknown(vars: &Vars, svids: &[u32]) -> Option<u32>
    ensures { result ≡ first_unknown vars.now svids.now }
{
    for svid in svids {
        if vars.value(*svid).is_none() {
            return Some(*svid);
        }
    }
    None
}
