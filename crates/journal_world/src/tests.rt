//! Worlds in which the host loses its power, and its journal.

use crate::running::run;
use end_pair::RunEnd;
use equipment_tables::{EquipmentPlan, Plans};
use gem_alarms::AlarmPlan;
use gem_remote::RemotePlan;
use gem_states::ControlState;
use gem_vars::VarsPlan;
use gl_base::{MemSink, Row};
use host_node::HostPlan;
use line_end::{LinePlan, Times};
use line_schedule::read_journal_schedule;
use spool_rule::RuleEntry;
use std::alloc::Global;
use std::test::Fail;

/// A block is tried four times, with ten seconds between.
const LINE: LinePlan = LinePlan {
    device: 0,
    times: Times {
        t1: 500,
        t2: 10_000,
        rty: 3,
    },
    t3: 45_000,
    t4: 45_000,
    max_body: 1_048_576,
};

/// A tool with an alarm, which spools alarms.
fn plans(alloc: Global) -> Option<Plans> {
    let mut alarms = Row::new(alloc);
    alarms
        .push(AlarmPlan {
            alid: 7,
            category: 3,
            text: Row::of(alloc, b"HOT").ok()?,
            enabled: true,
        })
        .ok()?;
    let mut spooled = Row::new(alloc);
    spooled
        .push(RuleEntry {
            stream: 5,
            functions: Row::of(alloc, &[1]).ok()?,
        })
        .ok()?;
    Some(Plans {
        equipment: EquipmentPlan {
            line: LINE,
            mdln: Row::of(alloc, b"T").ok()?,
            softrev: Row::of(alloc, b"1").ok()?,
            enable: true,
            control: ControlState::Remote,
            spooled,
            vars: VarsPlan {
                variables: Row::new(alloc),
                constants: Row::new(alloc),
                built_in: [10, 1, 1, 0],
            },
            events: Row::new(alloc),
            alarms,
            remote: RemotePlan {
                commands: Row::new(alloc),
                terminals: 1,
            },
        },
        host: HostPlan {
            line: LINE,
            enable: true,
        },
        slots: 4,
    })
}

/// How a run of a schedule over a journal of so many slots ended, where the plans and the schedule are good ones.
fn end_of_run(alloc: Global, slots: u32, schedule: &[u8], out: &mut MemSink) -> Option<RunEnd> {
    let plans = plans(alloc)?;
    if !plans.fits() || slots == 0 || slots > 1024 {
        return None;
    }
    let Ok(schedule) = read_journal_schedule(alloc, schedule) else {
        return None;
    };
    let (end, _world) = run(alloc, &plans, slots, &schedule, out);
    Some(end)
}

/// Whether the host's notes of its journal, of its starts and of losses are these lines, in order.
fn notes_so(text: &[u8], wanted: &[&[u8]]) -> bool {
    let mut seen = 0;
    let mut from = 0;
    for place in 0..text.len() {
        if text[place] == b'\n' && from <= place {
            let line = &text[from..place];
            from = place + 1;
            if is_told(line) {
                if seen >= wanted.len() || line != wanted[seen] {
                    return false;
                }
                seen += 1;
            }
        }
    }
    seen == wanted.len()
}

/// Whether a line is one of the host's about its journal, a start or a loss.
fn is_told(line: &[u8]) -> bool {
    for place in 0..line.len() {
        let rest = &line[place..];
        if rest.starts_with(b" H listing ") || rest.starts_with(b" H listed ") {
            return true;
        }
        if rest.starts_with(b" H start") || rest.starts_with(b" H power") {
            return true;
        }
    }
    false
}

/// A schedule over a journal of so many slots, how its run ends, and what the host notes.
#[derive(Drop)]
struct Case<'a> {
    slots: u32,
    schedule: &'a [u8],
    end: RunEnd,
    notes: &'a [&'a [u8]],
}

fn goes(alloc: Global, case: &Case<'_>) -> bool {
    let Ok(mut out) = MemSink::new(alloc, 100_000) else {
        return false;
    };
    end_of_run(alloc, case.slots, case.schedule, &mut out) == Some(case.end)
        && notes_so(out.bytes(), case.notes)
}

/// The host's power goes as the gate of an alarm's record is opened, and what it writes then is kept: the start finds
/// the record. The tool tries the block again, and the alarm is listed twice.
#[test]
fn a_record_is_kept_and_listed_again(rt: HostRuntime) {
    assert!(rt;
        goes(
            rt.alloc(),
            &Case {
                slots: 16,
                schedule: b"settle\ntool alarm 7 set\nhcut 4 new\nsettle\nwait 10000\nsettle\n",
                end: RunEnd::Whole,
                notes: &[
                    b"0 H start len=0 base=0",
                    b"0 H listing 0 S5F1 W",
                    b"0 H power",
                    b"0 H start len=1 base=4096",
                    b"10000 H listing 1 S5F1 W",
                    b"10000 H listed 1",
                ],
            }
        )
    );
}

/// What it writes then is lost: the start finds nothing, and the alarm is listed once.
#[test]
fn a_record_is_lost_and_listed_then(rt: HostRuntime) {
    assert!(rt;
        goes(
            rt.alloc(),
            &Case {
                slots: 16,
                schedule: b"settle\ntool alarm 7 set\nhcut 4 old\nsettle\nwait 10000\nsettle\n",
                end: RunEnd::Whole,
                notes: &[
                    b"0 H start len=0 base=0",
                    b"0 H listing 0 S5F1 W",
                    b"0 H power",
                    b"0 H start len=0 base=4096",
                    b"10000 H listing 0 S5F1 W",
                    b"10000 H listed 0",
                ],
            }
        )
    );
}

/// The next start finds what was listed, in order, and its numbers go on.
#[test]
fn starts_find_what_was_listed(rt: HostRuntime) {
    assert!(rt;
        goes(
            rt.alloc(),
            &Case {
                slots: 16,
                schedule: b"settle\ntool alarm 7 set\nsettle\ntool alarm 7 clear\nsettle\nhcut 1 old\nwait 0\n\
            tool alarm 7 set\nsettle\nhcut 9 old\nwait 0\n",
                end: RunEnd::Whole,
                notes: &[
                    b"0 H start len=0 base=0",
                    b"0 H listing 0 S5F1 W",
                    b"0 H listed 0",
                    b"0 H listing 1 S5F1 W",
                    b"0 H listed 1",
                    b"0 H power",
                    b"0 H start len=2 base=4096",
                    b"0 H listing 2 S5F1 W",
                    b"0 H listed 2",
                    b"0 H power",
                    b"0 H start len=3 base=8192",
                ],
            }
        )
    );
}

/// A journal of two slots takes two records, and the third ends the run: nothing is noted of it.
#[test]
fn a_full_journal_ends_the_run(rt: HostRuntime) {
    assert!(rt;
        goes(
            rt.alloc(),
            &Case {
                slots: 2,
                schedule: b"settle\ntool alarm 7 set\nsettle\ntool alarm 7 clear\nsettle\n\
            tool alarm 7 set\nsettle\nwait 1\n",
                end: RunEnd::JournalFull,
                notes: &[
                    b"0 H start len=0 base=0",
                    b"0 H listing 0 S5F1 W",
                    b"0 H listed 0",
                    b"0 H listing 1 S5F1 W",
                    b"0 H listed 1",
                ],
            }
        )
    );
}

/// A `cut` takes the place of an `hcut`, and the last one of a schedule does nothing.
#[test]
fn one_loss_is_pending(rt: HostRuntime) {
    assert!(rt;
        goes(
            rt.alloc(),
            &Case {
                slots: 16,
                schedule: b"settle\nhcut 1 old\ncut 1 old\nwait 0\nsettle\nhcut 1 new\n",
                end: RunEnd::Whole,
                notes: &[b"0 H start len=0 base=0"],
            }
        )
    );
}

/// A host that is disabled lists what comes, too, and nothing answers it.
#[test]
fn a_disabled_host_lists(rt: HostRuntime) {
    assert!(rt;
        goes(
            rt.alloc(),
            &Case {
                slots: 16,
                schedule: b"settle\nhost disable\ntool alarm 7 set\nsettle\n",
                end: RunEnd::Whole,
                notes: &[
                    b"0 H start len=0 base=0",
                    b"0 H listing 0 S5F1 W",
                    b"0 H listed 0",
                ],
            }
        )
    );
}

/// The host's power goes at each call of a put, under each choice, and whether its start finds the record. The fourth
/// call opens the gate of the record's slot, which 5A does, and the fifth settles it.
static LOSSES: [(&[u8], bool); 20] = [
    (b"1 old", false),
    (b"2 old", false),
    (b"3 old", false),
    (b"4 old", false),
    (b"5 old", false),
    (b"1 new", false),
    (b"2 new", false),
    (b"3 new", false),
    (b"4 new", true),
    (b"5 new", true),
    (b"1 fill 5A", false),
    (b"2 fill 5A", false),
    (b"3 fill 5A", false),
    (b"4 fill 5A", true),
    (b"5 fill 5A", true),
    (b"1 first 0", false),
    (b"2 first 1", false),
    (b"3 first 9", false),
    (b"4 first 0", false),
    (b"5 first 1", true),
];

/// What the host notes of it where the record isn't there, and where it is.
static LOST: [&[u8]; 4] = [
    b"0 H start len=0 base=0",
    b"0 H listing 0 S5F1 W",
    b"0 H power",
    b"0 H start len=0 base=4096",
];

static FOUND: [&[u8]; 4] = [
    b"0 H start len=0 base=0",
    b"0 H listing 0 S5F1 W",
    b"0 H power",
    b"0 H start len=1 base=4096",
];

/// A schedule in which the host's power goes at this call of a put, under this choice.
fn losing(alloc: Global, cut: &[u8]) -> Option<Row<u8>> {
    let mut text = Row::of(alloc, b"settle\ntool alarm 7 set\nhcut ").ok()?;
    for byte in cut {
        text.push(*byte).ok()?;
    }
    for byte in b"\nsettle\n" {
        text.push(*byte).ok()?;
    }
    Some(text)
}

fn loses_so(alloc: Global, cut: &[u8], is_found: bool) -> bool {
    let Some(schedule) = losing(alloc, cut) else {
        return false;
    };
    goes(
        alloc,
        &Case {
            slots: 16,
            schedule: schedule.as_slice(),
            end: RunEnd::Whole,
            notes: if is_found { &FOUND } else { &LOST },
        },
    )
}

#[test]
fn a_loss_at_each_call_of_a_put(rt: HostRuntime) {
    for (cut, is_found) in &LOSSES {
        assert!(rt; loses_so(rt.alloc(), cut, *is_found));
    }
}

/// Power goes behind the put: the record is there, and the message comes again, since no reply went out.
#[test]
fn a_record_is_there_behind_the_put(rt: HostRuntime) {
    assert!(rt;
        goes(
            rt.alloc(),
            &Case {
                slots: 16,
                schedule: b"settle\ntool alarm 7 set\nhcut 6 old\nsettle\nwait 10000\nsettle\n",
                end: RunEnd::Whole,
                notes: &[
                    b"0 H start len=0 base=0",
                    b"0 H listing 0 S5F1 W",
                    b"0 H listed 0",
                    b"0 H power",
                    b"0 H start len=1 base=4096",
                ],
            }
        )
    );
}

/// Two losses, one behind the other: of the host, and then of the tool, which has its alarm in its spool by then. Both
/// go on.
#[test]
fn both_lose_their_power(rt: HostRuntime) {
    assert!(rt;
        goes(
            rt.alloc(),
            &Case {
                slots: 16,
                schedule: b"settle\ntool alarm 7 set\nhcut 4 new\nsettle\ncut 1 old\nwait 0\nsettle\n\
            tool alarm 7 set\nsettle\n",
                end: RunEnd::Whole,
                notes: &[
                    b"0 H start len=0 base=0",
                    b"0 H listing 0 S5F1 W",
                    b"0 H power",
                    b"0 H start len=1 base=4096",
                    b"0 H listing 1 S5F1 W",
                    b"0 H listed 1",
                ],
            }
        )
    );
}
