//! One trace that runs: when its next sample is due, and what it brings. A step reads all samples that are due first,
//! which may want memory, and takes them then, which wants none; so it takes all of them or none.

ghost use Rattle.std.specs.Prelude.{◌≡◌, [], ◌∷◌, ◌+◌, ◌++◌, ◌<◌, ◌≤◌, ◌^◌, length, take, vec_capacity, IfOk, OnErr, OnOk};
ghost use Rattle.std.specs.Option.{option_to_list};
ghost use Rattle.gem_vars.specs.Listing.{value_item};
ghost use Rattle.gem_trace.specs.Kept.{IsKept, body_read, brings_body, ends_next, front_due, goes_on, is_other, seen, settled, with_reading};
ghost use Rattle.gem_trace.specs.Traces.{first_trace, is_due, readings};

use crate::body::BodyFront;
use crate::request::TraceRequest;
use gem_vars::Vars;
use gl_base::{NoMemory, Row};
use secs_items::Item;
use std::alloc::Global;
use std::mem;

/// A trace that runs, with what the host asked for.
#[derive(Debug, Drop)]
pub(crate) struct Trace {
    pub(crate) trid: u32,
    /// In milliseconds.
    pub(crate) period: u64,
    pub(crate) total: u32,
    pub(crate) group: u32,
    pub(crate) svids: Row<u32>,
    /// The moment of its next sample.
    pub(crate) due: u64,
    /// How many samples it has taken.
    pub(crate) taken: u32,
    /// The values since its last S6F1, and behind them those of a sample that was read and isn't taken yet.
    pub(crate) values: Row<Item>,
    /// How many of the values are of samples taken.
    pub(crate) held: usize,
    /// Where S6F1 is due with a sample that was read and isn't taken yet, what stands before the values in its body.
    pub(crate) front: Option<BodyFront>,
}

impl Trace {
    /// The trace that a request sets at this moment, without a sample.
    pub(crate) fn first(
        alloc: Global,
        request: &TraceRequest,
        now: u64,
        period: u64,
    ) -> Result<Trace, NoMemory>
        requires now { now < 2 ^ 62 }
        requires period { period < 2 ^ 62 }
        requires total { 0 < request.now.total }
        requires group { 0 < request.now.group }
        ensures trace { IfOk result (λ trace. seen trace ≡ first_trace request.now now period) }
        ensures kept { IfOk result (λ trace. IsKept trace) }
    {
        Ok(Trace {
            trid: request.trid,
            period,
            total: request.total,
            group: request.group,
            svids: Row::of(alloc, request.svids.as_slice())?,
            due: now + period,
            taken: 0,
            values: Row::new(alloc),
            held: 0,
            front: None,
        })
    }

    /// Whether it has another TRID than this one.
    pub(crate) fn is_other(&self, trid: u32) -> bool
        ensures { result ≡ is_other trid self.now }
    {
        self.trid != trid
    }

    /// Reads the sample where one is due at this moment: its values stand behind those held, and where S6F1 is due with
    /// it, its body is begun. Nothing is seen of either.
    pub(crate) fn read(&mut self, alloc: Global, vars: &Vars, now: u64) -> Result<(), NoMemory>
        requires { IsKept self.old }
        ensures ok { OnOk result (self.new ≡ with_reading vars.now now self.old) }
        ensures err { OnErr result (seen self.new ≡ seen self.old) }
        ensures kept { IsKept self.new }
    {
        if !self.is_due(now) {
            return Ok(());
        }
        let front = self.front_due(alloc)?;
        self.values.truncate(self.held);
        put_readings(alloc, vars, self.svids.as_slice(), &mut self.values)?;
        self.front = front;
        Ok(())
    }

    /// Whether taking the sample that was read brings an S6F1 at this moment.
    pub(crate) fn brings_body(&self, now: u64) -> bool
        ensures { result ≡ brings_body now self.now }
    {
        self.is_due(now) && self.front.is_some()
    }

    /// Takes the sample that was read, where one is due at this moment. The values go into the body of the S6F1 that is
    /// due with it, which is put behind the bodies.
    pub(crate) fn settle(&mut self, alloc: Global, now: u64, bodies: &mut Vec<Item>)
        requires now { now < 2 ^ 62 }
        requires kept { IsKept self.old }
        requires room { length (bodies.old.items ++ option_to_list (body_read now self.old))
            ≤ vec_capacity bodies.old }
        ensures trace { self.new ≡ settled now self.old }
        ensures bodies { bodies.new.items ≡ bodies.old.items ++ option_to_list (body_read now self.old) }
        ensures capacity { vec_capacity bodies.new ≡ vec_capacity bodies.old }
    {
        if !self.is_due(now) {
            return;
        }
        if let Some(front) = self.front.take() {
            let values = mem::replace(&mut self.values, Row::new(alloc));
            bodies.push_reserved(front.with_values(values));
        }
        self.held = self.values.len();
        self.taken += 1;
        self.due = now + self.period;
    }

    /// Whether samples are still to come.
    pub(crate) fn goes_on(&self) -> bool
        ensures { result ≡ goes_on self.now }
    {
        self.taken < self.total
    }

    // Whether a sample is due at this moment.
    fn is_due(&self, now: u64) -> bool
        ensures { result ≡ is_due now (seen self.now) }
    {
        self.due <= now
    }

    // Whether S6F1 is due with the next sample.
    fn ends_next(&self) -> bool
        requires { IsKept self.now }
        ensures { result ≡ ends_next self.now }
    {
        // Read first, since it bounds the number.
        let total = self.total;
        let number = self.taken + 1;
        number % self.group == 0 || number == total
    }

    // What stands before the values in the body of S6F1, where that is due with the next sample.
    fn front_due(&self, alloc: Global) -> Result<Option<BodyFront>, NoMemory>
        requires { IsKept self.now }
        ensures { IfOk result (λ front. front ≡ front_due self.now) }
    {
        if !self.ends_next() {
            return Ok(None);
        }
        let front = BodyFront::of(alloc, self.trid, self.taken + 1)?;
        Ok(Some(front))
    }
}

// Puts the values of these variables behind the others, which stay in any case.
fn put_readings(
    alloc: Global,
    vars: &Vars,
    svids: &[u32],
    values: &mut Row<Item>,
) -> Result<(), NoMemory>
    ensures ok { OnOk result (values.new ≡ values.old ++ readings vars.now svids.now) }
    ensures err { OnErr result (take (length values.old) values.new ≡ values.old) }
{
    for svid in svids {
        put_reading(alloc, vars, *svid, values)?;
    }
    Ok(())
}

fn put_reading(
    alloc: Global,
    vars: &Vars,
    svid: u32,
    values: &mut Row<Item>,
) -> Result<(), NoMemory>
    ensures ok { OnOk result (values.new ≡ values.old ++ value_item vars.now svid ∷ []) }
    ensures err { OnErr result (values.new ≡ values.old) }
{
    values.push(reading(alloc, vars, svid)?)
}

// The value of a variable, and an empty list where there is none.
fn reading(alloc: Global, vars: &Vars, svid: u32) -> Result<Item, NoMemory>
    ensures { IfOk result (λ value. value ≡ value_item vars.now svid) }
{
    match vars.value(svid) {
        Some(value) => value.copy(alloc),
        None => Ok(Item::L(Row::new(alloc))),
    }
}
