//! Calls GEM's tables again and again, so that a script can time them.
#![tactic(auto)]

ghost use Rattle.std.specs.Prelude.{◌<◌, ◌^◌};

use gem_reports::{Definition, Linking, Reports};
use gem_trace::{TraceRequest, Traces};
use gem_vars::{VariablePlan, Vars, VarsPlan};
use gl_base::{NoMemory, Row};
use secs_items::Item;
use std::alloc::Global;
use std::process::ExitCode;
use std::{env, io};

/// What is done again and again.
#[derive(Clone, Copy)]
enum Work {
    /// The value of each variable.
    Value,
    /// Whether each event is enabled.
    Enabled,
    /// The body of an event that carries all reports.
    EventBody,
    /// Deletes all reports, and defines them anew.
    Define,
    /// Unlinks an event, and links all reports to it anew.
    Link,
    /// The values of all variables, as S1F4 has them.
    StatusValues,
    /// A sample of all variables, by a trace with so many samples in an S6F1.
    Sample(u32),
    /// What a step asks of as many traces as there are rows, of which none is due.
    NotDue,
}

/// Tables with so many variables, events and reports of one variable each.
#[derive(Drop)]
struct Tables {
    ids: Row<u32>,
    vars: Vars,
    reports: Reports,
    requests: Requests,
    traces: Traces,
}

/// What is asked of the reports.
#[derive(Drop)]
struct Requests {
    anew: Row<Definition>,
    linked: Row<Linking>,
}

fn main(rt: HostRuntime) -> io::Result<ExitCode> {
    let mut words = env::args(&rt)?.skip(1);
    let Some(work) = words.next().and_then(|word| work_named(word.as_str())) else {
        return Ok(ExitCode::from(64));
    };
    let rows = words
        .next()
        .and_then(|word| word.as_str().parse::<u32>().ok())
        .unwrap_or(1);
    let turns = words
        .next()
        .and_then(|word| word.as_str().parse::<u32>().ok())
        .unwrap_or(1);
    match tables_of(rt.alloc(), work, rows) {
        Ok(Some(mut tables)) => {
            let done = work_on(rt.alloc(), work, turns, &mut tables);
            println!(rt; "{done}")?;
            Ok(ExitCode::SUCCESS)
        }
        Ok(None) => Ok(ExitCode::from(64)),
        Err(_) => Ok(ExitCode::from(71)),
    }
}

fn work_named(word: &str) -> Option<Work> {
    match word {
        "value" => Some(Work::Value),
        "enabled" => Some(Work::Enabled),
        "event-body" => Some(Work::EventBody),
        "define" => Some(Work::Define),
        "link" => Some(Work::Link),
        "status-values" => Some(Work::StatusValues),
        "sample-alone" => Some(Work::Sample(1)),
        "sample-of-16" => Some(Work::Sample(16)),
        "not-due" => Some(Work::NotDue),
        _ => None,
    }
}

fn tables_of(alloc: Global, work: Work, rows: u32) -> Result<Option<Tables>, NoMemory> {
    match vars_of(alloc, rows)? {
        Some(vars) => Ok(Some(tables_over(alloc, work, rows, vars)?)),
        None => Ok(None),
    }
}

// The variables, where a plan may have so many.
fn vars_of(alloc: Global, rows: u32) -> Result<Option<Vars>, NoMemory> {
    let plan = plan_of(alloc, rows)?;
    if !plan.fits() {
        return Ok(None);
    }
    Ok(Some(Vars::new(alloc, &plan)?))
}

fn tables_over(alloc: Global, work: Work, rows: u32, vars: Vars) -> Result<Tables, NoMemory> {
    let ids = ids_of(alloc, rows)?;
    let requests = requests_of(alloc, ids.as_slice())?;
    let reports = reports_of(alloc, &vars, ids.as_slice(), &requests)?;
    let traces = traces_of(alloc, work, &vars, ids.as_slice())?;
    Ok(Tables {
        ids,
        vars,
        reports,
        requests,
        traces,
    })
}

fn ids_of(alloc: Global, rows: u32) -> Result<Row<u32>, NoMemory> {
    let mut ids = Row::new(alloc);
    for id in 0..rows {
        ids.push(id)?;
    }
    Ok(ids)
}

fn requests_of(alloc: Global, ids: &[u32]) -> Result<Requests, NoMemory> {
    let anew = definitions(alloc, ids)?;
    let linked = linkings(alloc, ids)?;
    Ok(Requests { anew, linked })
}

fn reports_of(
    alloc: Global,
    vars: &Vars,
    ids: &[u32],
    requests: &Requests,
) -> Result<Reports, NoMemory> {
    let mut reports = Reports::new(alloc, ids)?;
    let _ = reports.define(alloc, vars, requests.anew.as_slice())?;
    let _ = reports.link(alloc, requests.linked.as_slice())?;
    let _ = reports.enable(true, &[]);
    Ok(reports)
}

// The traces that the work wants: one of all variables, or one for each row that isn't due yet.
fn traces_of(alloc: Global, work: Work, vars: &Vars, ids: &[u32]) -> Result<Traces, NoMemory> {
    let mut traces = Traces::new(alloc);
    match work {
        Work::Sample(group) => {
            let request = request_of(alloc, 0, group, ids)?;
            let _ = traces.set(alloc, vars, &request, 0)?;
        }
        Work::NotDue => set_each(alloc, &mut traces, vars, ids)?,
        _ => {}
    }
    Ok(traces)
}

fn set_each(alloc: Global, traces: &mut Traces, vars: &Vars, ids: &[u32]) -> Result<(), NoMemory> {
    for id in ids {
        let request = request_of(alloc, *id, 1, &[*id])?;
        let _ = traces.set(alloc, vars, &request, 0)?;
    }
    Ok(())
}

// A trace of these variables, with a sample each 100 ms.
fn request_of(
    alloc: Global,
    trid: u32,
    group: u32,
    svids: &[u32],
) -> Result<TraceRequest, NoMemory> {
    Ok(TraceRequest {
        trid,
        dsper: Row::of(alloc, b"00000010")?,
        total: u32::MAX,
        group,
        svids: Row::of(alloc, svids)?,
    })
}

fn plan_of(alloc: Global, rows: u32) -> Result<VarsPlan, NoMemory> {
    let mut variables = Row::new(alloc);
    for vid in 0..rows {
        variables.push(VariablePlan {
            vid,
            name: Row::new(alloc),
            units: Row::new(alloc),
            value: Item::number(alloc, vid)?,
        })?;
    }
    Ok(VarsPlan {
        variables,
        constants: Row::new(alloc),
        built_in: [10, 1, 1, 0],
    })
}

// An entry that deletes each report, and one that defines it with its variable.
fn definitions(alloc: Global, ids: &[u32]) -> Result<Row<Definition>, NoMemory> {
    let mut list = Row::new(alloc);
    for id in ids {
        list.push(Definition {
            rptid: *id,
            vids: Row::new(alloc),
        })?;
    }
    for id in ids {
        list.push(Definition {
            rptid: *id,
            vids: Row::of(alloc, &[*id])?,
        })?;
    }
    Ok(list)
}

// An entry that unlinks event 0, and one that links all reports to it.
fn linkings(alloc: Global, ids: &[u32]) -> Result<Row<Linking>, NoMemory> {
    let mut list = Row::new(alloc);
    list.push(Linking {
        ceid: 0,
        rptids: Row::new(alloc),
    })?;
    list.push(Linking {
        ceid: 0,
        rptids: Row::of(alloc, ids)?,
    })?;
    Ok(list)
}

// Does the work so many times, and says how often it came to something.
fn work_on(alloc: Global, work: Work, turns: u32, tables: &mut Tables) -> u64 {
    let mut done = 0u64;
    for turn in 0..turns {
        done = done.wrapping_add(once(alloc, work, turn, tables));
    }
    done
}

fn once(alloc: Global, work: Work, turn: u32, tables: &mut Tables) -> u64 {
    match work {
        Work::Value => values(&tables.vars, tables.ids.as_slice()),
        Work::Enabled => enabled(&tables.reports, tables.ids.as_slice()),
        Work::EventBody => u64::from(has_body(alloc, tables)),
        Work::Define => u64::from(defines(alloc, tables)),
        Work::Link => u64::from(links(alloc, tables)),
        Work::StatusValues => u64::from(has_status_values(alloc, tables)),
        Work::Sample(_) => samples(alloc, u64::from(turn) * 100 + 100, tables),
        Work::NotDue => samples(alloc, 0, tables).wrapping_add(waits(&tables.traces)),
    }
}

fn has_body(alloc: Global, tables: &Tables) -> bool {
    tables.reports.event_body(alloc, 0, 0, &tables.vars).is_ok()
}

fn defines(alloc: Global, tables: &mut Tables) -> bool {
    let list = tables.requests.anew.as_slice();
    tables.reports.define(alloc, &tables.vars, list).is_ok()
}

fn links(alloc: Global, tables: &mut Tables) -> bool {
    let list = tables.requests.linked.as_slice();
    tables.reports.link(alloc, list).is_ok()
}

fn has_status_values(alloc: Global, tables: &Tables) -> bool {
    let ids = tables.ids.as_slice();
    tables.vars.status_values(alloc, ids).is_ok()
}

// How many S6F1 are due with the samples of this moment.
fn samples(alloc: Global, now: u64, tables: &mut Tables) -> u64
    requires { now < 2 ^ 62 }
{
    match tables.traces.sample(alloc, &tables.vars, now) {
        Ok(bodies) => bodies.len() as u64,
        Err(_) => 0,
    }
}

// Whether a sample is to come.
fn waits(traces: &Traces) -> u64 {
    u64::from(traces.deadline().is_some())
}

fn values(vars: &Vars, ids: &[u32]) -> u64 {
    let mut found = 0u64;
    for id in ids {
        found = found.wrapping_add(u64::from(vars.value(*id).is_some()));
    }
    found
}

fn enabled(reports: &Reports, ids: &[u32]) -> u64 {
    let mut found = 0u64;
    for id in ids {
        found = found.wrapping_add(u64::from(reports.enabled(*id)));
    }
    found
}
