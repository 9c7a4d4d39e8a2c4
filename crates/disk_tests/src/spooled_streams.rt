//! `spool_rule`: each S2F43 of a table with its S2F44, and the primaries that are covered behind it.

use gl_base::{NoMemory, Row};
use secs_items::{Item, encode_into};
use spool_rule::{RuleEntry, SpoolRule};
use std::alloc::Global;
use std::test::Fail;

// An entry of S2F43: STRID and FCNIDs.
type Entry = (u8, &'static [u8]);

// The entries of an S2F43, the body of its S2F44, and whether S5F1, S6F11 and S10F1 are covered after it.
type Case = (&'static [Entry], &'static [u8], [bool; 3]);

// One after another, where the plan has S5F1: a secondary beside a primary; a stream of which nothing can be spooled;
// all of a stream; each STRACK, in the order of its tests and beside a good entry; functions that are named twice; bad
// ones named twice; all streams; and no entry.
static CASES: [Case; 8] = [
    (
        &[(6, &[11, 12])],
        b"\x01\x02!\x01\x01\x01\x01\x01\x03\xA5\x01\x06!\x01\x04\x01\x01\xA5\x01\x0C",
        [true, false, false],
    ),
    (
        &[(1, &[])],
        b"\x01\x02!\x01\x01\x01\x01\x01\x03\xA5\x01\x01!\x01\x01\x01\x00",
        [true, false, false],
    ),
    (
        &[(6, &[])],
        b"\x01\x02!\x01\x00\x01\x00",
        [false, true, false],
    ),
    (
        &[
            (9, &[2]),
            (10, &[]),
            (2, &[2]),
            (5, &[3, 0, 1]),
            (6, &[1, 11, 5]),
        ],
        b"\x01\x02!\x01\x01\x01\x04\x01\x03\xA5\x01\x09!\x01\x01\x01\x00\x01\x03\xA5\x01\x02!\x01\x02\x01\x00\
            \x01\x03\xA5\x01\x05!\x01\x04\x01\x01\xA5\x01\x00\
            \x01\x03\xA5\x01\x06!\x01\x03\x01\x02\xA5\x01\x01\xA5\x01\x05",
        [false, true, false],
    ),
    (
        &[(5, &[1, 1]), (10, &[1]), (5, &[1])],
        b"\x01\x02!\x01\x00\x01\x00",
        [true, false, true],
    ),
    (
        &[(10, &[3]), (10, &[3, 3])],
        b"\x01\x02!\x01\x01\x01\x02\x01\x03\xA5\x01\x0A!\x01\x03\x01\x01\xA5\x01\x03\
            \x01\x03\xA5\x01\x0A!\x01\x03\x01\x02\xA5\x01\x03\xA5\x01\x03",
        [true, false, true],
    ),
    (
        &[(5, &[]), (6, &[11]), (10, &[])],
        b"\x01\x02!\x01\x00\x01\x00",
        [true, true, true],
    ),
    (&[], b"\x01\x02!\x01\x00\x01\x00", [false, false, false]),
];

fn entry_of(alloc: Global, entry: Entry) -> Result<RuleEntry, NoMemory> {
    Ok(RuleEntry {
        stream: entry.0,
        functions: Row::of(alloc, entry.1)?,
    })
}

fn entries_of(alloc: Global, asked: &[Entry]) -> Result<Row<RuleEntry>, NoMemory> {
    let mut entries = Row::new(alloc);
    for entry in asked {
        entries.push(entry_of(alloc, *entry)?)?;
    }
    Ok(entries)
}

// Whether an item is spelled so.
fn is_spelled(alloc: Global, item: Result<Item, NoMemory>, bytes: &[u8]) -> bool {
    let mut spelling = Row::new(alloc);
    match item {
        Ok(item) => encode_into(&item, &mut spelling).is_ok() && spelling.as_slice() == bytes,
        Err(NoMemory) => false,
    }
}

// Whether these are covered, and none of their neighbours.
fn covers(rule: SpoolRule, covered: [bool; 3]) -> bool {
    rule.covers(5, 1) == covered[0]
        && rule.covers(6, 11) == covered[1]
        && rule.covers(10, 1) == covered[2]
        && !rule.covers(6, 1)
        && !rule.covers(5, 11)
        && !rule.covers(1, 1)
}

// Whether the S2F43 is answered so, and leaves this.
fn goes(alloc: Global, rule: &mut SpoolRule, case: &Case) -> bool {
    let (asked, reply, covered) = *case;
    let Ok(entries) = entries_of(alloc, asked) else {
        return false;
    };
    let Ok(answer) = rule.replace(alloc, entries.as_slice()) else {
        return false;
    };
    is_spelled(alloc, answer.reply(alloc), reply) && covers(*rule, covered)
}

fn planned(alloc: Global, plan: &[Entry]) -> Option<SpoolRule> {
    match entries_of(alloc, plan) {
        Ok(plan) => Some(SpoolRule::new(plan.as_slice())),
        Err(NoMemory) => None,
    }
}

#[test]
fn a_bad_entry_leaves_the_rule(rt: HostRuntime) -> Result<(), Fail> {
    let mut rule = planned(rt.alloc(), &[(5, &[1])]).ok_or("memory")?;
    assert!(rt; covers(rule, [true, false, false]));
    for case in &CASES {
        assert!(rt; goes(rt.alloc(), &mut rule, case), "{case:?}");
    }
    Ok(())
}
