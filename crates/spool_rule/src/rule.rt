//! Which primaries are spooled, and how S2F43 replaces that, with its bad entries and their STRACK.

ghost use Rattle.std.specs.Prelude.{◌≡◌, IfOk, OnErr, filter};
ghost use Rattle.spool_rule.specs.Rule.{answer_of, covered, fault_of, fault_with, faults_of, is_named, is_unknown};
ghost use Rattle.spool_rule.specs.Rule.{is_outside, is_secondary, is_spoolable, is_unspooled, names, rule_by, rule_of};

use gem_shapes::RuleEntry;
use gl_base::{NoMemory, Row};
use std::alloc::Global;

/// An entry of S2F43 that is refused.
#[derive(Debug, Drop)]
pub struct RuleFault {
    /// STRID, as the entry has it.
    pub stream: u8,
    /// STRACK: 1 nothing of the stream can be spooled, 2 there is no such stream, 3 the functions can't be spooled, 4
    /// the functions are of secondaries.
    pub strack: u8,
    /// FCNID: the functions that STRACK 3 and 4 are about. With 1 and 2 there is none.
    pub functions: Row<u8>,
}

/// What an S2F43 is answered.
#[derive(Debug, Drop)]
pub enum RuleAnswer {
    /// The rule is that of the message.
    Replaced,
    /// These entries are bad, and the rule is as it was.
    Rejected(Row<RuleFault>),
}

/// Which primaries are spooled. Only S5F1, S6F11 and S10F1 can be, so it is one flag for each.
#[derive(Clone, Copy, Debug, PartialEq, Eq)]
pub struct SpoolRule {
    alarms: bool,
    events: bool,
    texts: bool,
}

impl SpoolRule {
    /// The rule as planned, before any S2F43: what these entries name. An entry without functions is all that can be
    /// spooled of its stream.
    pub fn new(plan: &[RuleEntry]) -> SpoolRule
        ensures { result ≡ rule_of plan.now }
    {
        SpoolRule {
            alarms: is_named(plan, 5, 1),
            events: is_named(plan, 6, 11),
            texts: is_named(plan, 10, 1),
        }
    }

    /// S2F43: replaces the whole rule. Without entries nothing is spooled any more; the functions of one stream may
    /// stand in several.
    ///
    /// An entry is bad with STRACK 1 for streams 1 and 9; with 2 for each stream but 1, 5, 6, 9 and 10; else with 4
    /// where it names even functions, and with 3 where it names others that can't be spooled. `Rejected` exactly where
    /// an entry is bad, with all bad ones in order, and then nothing changes.
    pub fn replace(&mut self, alloc: Global, entries: &[RuleEntry]) -> Result<RuleAnswer, NoMemory>
        ensures answer { IfOk result (λ answer. answer ≡ answer_of entries.now) }
        ensures rule { IfOk result (λ answer. self.new ≡ rule_by answer entries.now self.old) }
        ensures no_memory { OnErr result (self.new ≡ self.old) }
    {
        let answer = SpoolRule::judge(alloc, entries)?;
        if let RuleAnswer::Replaced = answer {
            *self = SpoolRule::new(entries);
        }
        Ok(answer)
    }

    /// What [`SpoolRule::replace`] would answer, whatever the rule is. It changes nothing.
    pub fn judge(alloc: Global, entries: &[RuleEntry]) -> Result<RuleAnswer, NoMemory>
        ensures { IfOk result (λ answer. answer ≡ answer_of entries.now) }
    {
        let faults = faults_of(alloc, entries)?;
        if faults.is_empty() {
            Ok(RuleAnswer::Replaced)
        } else {
            Ok(RuleAnswer::Rejected(faults))
        }
    }

    /// Whether this primary is spooled.
    pub fn covers(&self, stream: u8, function: u8) -> bool
        ensures { result ≡ covered self.now stream function }
    {
        match (stream, function) {
            (5, 1) => self.alarms,
            (6, 11) => self.events,
            (10, 1) => self.texts,
            _ => false,
        }
    }
}

// Whether one of the entries names this primary.
fn is_named(entries: &[RuleEntry], stream: u8, function: u8) -> bool
    ensures { result ≡ is_named entries.now stream function }
{
    entries.iter().any(|entry| names(entry, stream, function))
}

fn names(entry: &RuleEntry, stream: u8, function: u8) -> bool
    ensures { result ≡ names stream function entry.now }
{
    let functions = entry.functions.as_slice();
    stream == entry.stream && (functions.is_empty() || functions.contains(&function))
}

// The refusals of all bad entries.
fn faults_of(alloc: Global, entries: &[RuleEntry]) -> Result<Row<RuleFault>, NoMemory>
    ensures { IfOk result (λ faults. faults ≡ faults_of entries.now) }
{
    let mut faults = Row::new(alloc);
    for entry in entries {
        if let Some(fault) = fault_of(alloc, entry)? {
            faults.push(fault)?;
        }
    }
    Ok(faults)
}

fn fault_of(alloc: Global, entry: &RuleEntry) -> Result<Option<RuleFault>, NoMemory>
    ensures { IfOk result (λ fault. fault ≡ fault_of entry.now) }
{
    let stream = entry.stream;
    if is_unspooled(stream) {
        return Ok(Some(fault(stream, 1, Row::new(alloc))));
    }
    if is_unknown(stream) {
        return Ok(Some(fault(stream, 2, Row::new(alloc))));
    }
    let secondaries = secondaries(alloc, entry.functions.as_slice())?;
    if !secondaries.is_empty() {
        return Ok(Some(fault(stream, 4, secondaries)));
    }
    let outside = outside(alloc, stream, entry.functions.as_slice())?;
    if !outside.is_empty() {
        return Ok(Some(fault(stream, 3, outside)));
    }
    Ok(None)
}

fn fault(stream: u8, strack: u8, functions: Row<u8>) -> RuleFault
    ensures { result ≡ fault_with stream strack functions }
{
    RuleFault {
        stream,
        strack,
        functions,
    }
}

// STRACK 1.
fn is_unspooled(stream: u8) -> bool
    ensures { result ≡ is_unspooled stream }
{
    matches!(stream, 1 | 9)
}

// STRACK 2.
fn is_unknown(stream: u8) -> bool
    ensures { result ≡ is_unknown stream }
{
    !matches!(stream, 1 | 5 | 6 | 9 | 10)
}

// STRACK 4.
fn secondaries(alloc: Global, functions: &[u8]) -> Result<Row<u8>, NoMemory>
    ensures { IfOk result (λ secondaries. secondaries ≡ filter is_secondary functions.now) }
{
    let mut secondaries = Row::new(alloc);
    for function in functions {
        if *function % 2 == 0 {
            secondaries.push(*function)?;
        }
    }
    Ok(secondaries)
}

// STRACK 3, where it isn't 4.
fn outside(alloc: Global, stream: u8, functions: &[u8]) -> Result<Row<u8>, NoMemory>
    ensures { IfOk result (λ outside. outside ≡ filter (is_outside stream) functions.now) }
{
    let mut outside = Row::new(alloc);
    for function in functions {
        if !is_spoolable(stream, *function) {
            outside.push(*function)?;
        }
    }
    Ok(outside)
}

fn is_spoolable(stream: u8, function: u8) -> bool
    ensures { result ≡ is_spoolable stream function }
{
    matches!((stream, function), (5, 1) | (6, 11) | (10, 1))
}
