//! Reports as they are defined, linked and enabled, and what events and reports carry then.

use crate::spelled::is_spelled;
use gem_reports::{Drack, Erack, Lrack, Reports};
use gem_shapes::{Definition, Linking};
use gem_vars::{VariablePlan, Vars, VarsPlan};
use gl_base::{NoMemory, Row};
use secs_items::Item;
use std::alloc::Global;
use std::test::Fail;

// The plan of one variable, 1, that has this number.
fn planned(alloc: Global, number: u32) -> Result<VarsPlan, NoMemory> {
    let mut variables = Row::new(alloc);
    variables.push(VariablePlan {
        vid: 1,
        name: Row::new(alloc),
        units: Row::new(alloc),
        value: Item::U4(Row::of(alloc, &[number])?),
    })?;
    Ok(VarsPlan {
        variables,
        constants: Row::new(alloc),
        built_in: [10, 1, 1, 0],
    })
}

fn vars_of(alloc: Global, plan: Result<VarsPlan, NoMemory>) -> Option<Vars> {
    let plan = plan.ok()?;
    if !plan.fits() {
        return None;
    }
    Vars::new(alloc, &plan).ok()
}

fn definition(alloc: Global, rptid: u32, vids: &[u32]) -> Result<Definition, NoMemory> {
    Ok(Definition {
        rptid,
        vids: Row::of(alloc, vids)?,
    })
}

fn linking(alloc: Global, ceid: u32, rptids: &[u32]) -> Result<Linking, NoMemory> {
    Ok(Linking {
        ceid,
        rptids: Row::of(alloc, rptids)?,
    })
}

fn definitions(alloc: Global, list: &[(u32, &[u32])]) -> Result<Row<Definition>, NoMemory> {
    let mut definitions = Row::new(alloc);
    for (rptid, vids) in list {
        definitions.push(definition(alloc, *rptid, vids)?)?;
    }
    Ok(definitions)
}

fn linkings(alloc: Global, list: &[(u32, &[u32])]) -> Result<Row<Linking>, NoMemory> {
    let mut linkings = Row::new(alloc);
    for (ceid, rptids) in list {
        linkings.push(linking(alloc, *ceid, rptids)?)?;
    }
    Ok(linkings)
}

/// A request, with its answer.
#[derive(Clone, Copy)]
enum Step<'a> {
    Define(&'a [(u32, &'a [u32])], Drack),
    Link(&'a [(u32, &'a [u32])], Lrack),
    Enable(bool, &'a [u32], Erack),
    /// Whether an event is known and enabled.
    IsEnabled(u32, bool, bool),
    /// The bytes of S6F11.
    Event(u32, &'a [u8]),
    /// The bytes of S6F20.
    Report(u32, &'a [u8]),
}

fn defines(
    reports: &mut Reports,
    alloc: Global,
    vars: &Vars,
    list: &[(u32, &[u32])],
    answer: Drack,
) -> bool {
    match definitions(alloc, list) {
        Ok(list) => match reports.define(alloc, vars, list.as_slice()) {
            Ok(drack) => drack == answer,
            Err(NoMemory) => false,
        },
        Err(NoMemory) => false,
    }
}

fn links(reports: &mut Reports, alloc: Global, list: &[(u32, &[u32])], answer: Lrack) -> bool {
    match linkings(alloc, list) {
        Ok(list) => match reports.link(alloc, list.as_slice()) {
            Ok(lrack) => lrack == answer,
            Err(NoMemory) => false,
        },
        Err(NoMemory) => false,
    }
}

// Whether the step goes so.
fn goes(reports: &mut Reports, alloc: Global, vars: &Vars, step: &Step<'_>) -> bool {
    match step {
        Step::Define(list, answer) => defines(reports, alloc, vars, list, *answer),
        Step::Link(list, answer) => links(reports, alloc, list, *answer),
        Step::Enable(on, list, answer) => reports.enable(*on, list) == *answer,
        Step::IsEnabled(ceid, known, enabled) => {
            reports.known(*ceid) == *known && reports.enabled(*ceid) == *enabled
        }
        Step::Event(ceid, bytes) => {
            is_spelled(alloc, reports.event_body(alloc, *ceid, 0, vars), bytes)
                && reports.event_body_len(*ceid, vars) == bytes.len()
        }
        Step::Report(rptid, bytes) => {
            is_spelled(alloc, reports.report_body(alloc, *rptid, vars), bytes)
                && reports.report_body_len(*rptid, vars) == bytes.len()
        }
    }
}

// The place of the first step that doesn't go so.
fn first_wrong(alloc: Global, events: &[u32], steps: &[Step<'_>]) -> Option<usize> {
    let vars = vars_of(alloc, planned(alloc, 5))?;
    let mut reports = Reports::new(alloc, events).ok()?;
    for (at, step) in steps.iter().enumerate() {
        if !goes(&mut reports, alloc, &vars, step) {
            return Some(at);
        }
    }
    Some(steps.len())
}

// The body of S6F11 of event 1 with report 10, which has variable 1.
const REPORTED: [u8; 32] = [
    0x01, 0x03, 0xB1, 0x04, 0x00, 0x00, 0x00, 0x00, 0xB1, 0x04, 0x00, 0x00, 0x00, 0x01, 0x01, 0x01,
    0x01, 0x02, 0xB1, 0x04, 0x00, 0x00, 0x00, 0x0A, 0x01, 0x01, 0xB1, 0x04, 0x00, 0x00, 0x00, 0x05,
];

// The body of S6F11 of event 1 without reports.
const BARE: [u8; 16] = [
    0x01, 0x03, 0xB1, 0x04, 0x00, 0x00, 0x00, 0x00, 0xB1, 0x04, 0x00, 0x00, 0x00, 0x01, 0x01, 0x00,
];

// The body of S6F11 of event 1 with reports 11, 10 and 11, of which 11 has variable 1 twice.
const TWICE: [u8; 76] = [
    0x01, 0x03, 0xB1, 0x04, 0x00, 0x00, 0x00, 0x00, 0xB1, 0x04, 0x00, 0x00, 0x00, 0x01, 0x01, 0x03,
    0x01, 0x02, 0xB1, 0x04, 0x00, 0x00, 0x00, 0x0B, 0x01, 0x02, 0xB1, 0x04, 0x00, 0x00, 0x00, 0x05,
    0xB1, 0x04, 0x00, 0x00, 0x00, 0x05, 0x01, 0x02, 0xB1, 0x04, 0x00, 0x00, 0x00, 0x0A, 0x01, 0x01,
    0xB1, 0x04, 0x00, 0x00, 0x00, 0x05, 0x01, 0x02, 0xB1, 0x04, 0x00, 0x00, 0x00, 0x0B, 0x01, 0x02,
    0xB1, 0x04, 0x00, 0x00, 0x00, 0x05, 0xB1, 0x04, 0x00, 0x00, 0x00, 0x05,
];

// The body of S6F11 of event 2 without reports.
const OTHER: [u8; 16] = [
    0x01, 0x03, 0xB1, 0x04, 0x00, 0x00, 0x00, 0x00, 0xB1, 0x04, 0x00, 0x00, 0x00, 0x02, 0x01, 0x00,
];

const VALUES: [u8; 8] = [0x01, 0x01, 0xB1, 0x04, 0x00, 0x00, 0x00, 0x05];

const NONE: [u8; 2] = [0x01, 0x00];

#[test]
fn a_refused_request_changes_nothing(rt: HostRuntime) -> Result<(), Fail> {
    let steps = [
        Step::Define(&[(10, &[1]), (11, &[99])], Drack::UnknownVid(99)),
        Step::Report(10, &NONE),
        Step::Define(&[(10, &[1])], Drack::Done),
        Step::Define(&[(10, &[1])], Drack::Defined(10)),
        Step::Link(&[(1, &[11])], Lrack::UnknownRptid(11)),
        Step::Link(&[(1, &[10]), (9, &[])], Lrack::UnknownCeid(9)),
        Step::Event(1, &BARE),
        Step::Enable(true, &[1, 9], Erack::Unknown(9)),
        Step::IsEnabled(1, true, false),
    ];
    assert!(rt; first_wrong(rt.alloc(), &[1, 2], &steps) == Some(steps.len()));
    Ok(())
}

#[test]
fn an_event_carries_its_reports(rt: HostRuntime) -> Result<(), Fail> {
    let steps = [
        Step::Define(&[(10, &[1])], Drack::Done),
        Step::Link(&[(1, &[10])], Lrack::Done),
        Step::Enable(true, &[], Erack::Done),
        Step::IsEnabled(2, true, true),
        Step::IsEnabled(9, false, false),
        Step::Event(1, &REPORTED),
        Step::Report(10, &VALUES),
        Step::Link(&[(1, &[10])], Lrack::Linked(1)),
    ];
    assert!(rt; first_wrong(rt.alloc(), &[1, 2], &steps) == Some(steps.len()));
    Ok(())
}

#[test]
fn a_deleted_report_takes_its_links(rt: HostRuntime) -> Result<(), Fail> {
    let steps = [
        Step::Define(&[(10, &[1])], Drack::Done),
        Step::Link(&[(1, &[10])], Lrack::Done),
        Step::Define(&[(10, &[]), (10, &[1])], Drack::Done),
        Step::Event(1, &BARE),
        Step::Link(&[(1, &[10]), (1, &[]), (1, &[10])], Lrack::Done),
        Step::Event(1, &REPORTED),
        Step::Define(&[], Drack::Done),
        Step::Event(1, &BARE),
        Step::Report(10, &NONE),
    ];
    assert!(rt; first_wrong(rt.alloc(), &[1, 2], &steps) == Some(steps.len()));
    Ok(())
}

#[test]
fn reports_stand_in_the_order_of_their_links(rt: HostRuntime) -> Result<(), Fail> {
    let steps = [
        Step::Define(&[(10, &[1]), (11, &[1, 1])], Drack::Done),
        Step::Link(&[(1, &[11, 10, 11])], Lrack::Done),
        Step::Event(1, &TWICE),
        Step::Event(2, &OTHER),
    ];
    assert!(rt; first_wrong(rt.alloc(), &[1, 2], &steps) == Some(steps.len()));
    Ok(())
}

// Definitions of so many reports.
fn many(alloc: Global, count: u32) -> Result<Row<Definition>, NoMemory> {
    let mut definitions = Row::new(alloc);
    for rptid in 0..count {
        definitions.push(definition(alloc, rptid, &[1])?)?;
    }
    Ok(definitions)
}

// Whether the definitions of so many reports are answered so.
fn many_are_defined(alloc: Global, reports: &mut Reports, count: u32, answer: Drack) -> bool {
    match (vars_of(alloc, planned(alloc, 5)), many(alloc, count)) {
        (Some(vars), Ok(list)) => match reports.define(alloc, &vars, list.as_slice()) {
            Ok(drack) => drack == answer,
            Err(NoMemory) => false,
        },
        _ => false,
    }
}

#[test]
fn reports_and_links_have_room(rt: HostRuntime) -> Result<(), Fail> {
    let mut reports = Reports::new(rt.alloc(), &[1, 2]).map_err(|_| "memory")?;
    let rptids = [7; 4_096];
    assert!(rt; many_are_defined(rt.alloc(), &mut reports, 1_025, Drack::NoSpace));
    assert!(rt; many_are_defined(rt.alloc(), &mut reports, 1_024, Drack::Done));
    assert!(rt;
        links(
            &mut reports,
            rt.alloc(),
            &[(1, &rptids), (2, &[7])],
            Lrack::NoSpace
        )
    );
    assert!(rt; links(&mut reports, rt.alloc(), &[(1, &rptids)], Lrack::Done));
    assert!(rt; links(&mut reports, rt.alloc(), &[(2, &[7])], Lrack::NoSpace));
    Ok(())
}
