//! What plan files are read, and the key and cause of each refusal: every range at both ends, every kind and row.

use equipment_tables::Plans;
use gem_config::{ConfigFault, ConfigWhat, read_plans};
use gem_states::ControlState;
use gl_base::{NoMemory, Row};
use std::alloc::Global;
use std::test::Fail;

// A file, the key of its refusal, and what is wrong with it.
type Refusal = (&'static str, &'static str, ConfigWhat);

fn is_refused(alloc: Global, text: &[u8], key: &str, what: ConfigWhat) -> bool {
    match read_plans(alloc, text) {
        Err(
            ConfigFault::Key {
                key: found,
                what: why,
            },
        ) => { found.as_slice() == key.as_bytes() && why == what }
        _ => false,
    }
}

// Whether each file is refused so.
fn are_refused(alloc: Global, rows: &[Refusal]) -> bool {
    for row in rows {
        if !is_refused(alloc, row.0.as_bytes(), row.1, row.2) {
            return false;
        }
    }
    true
}

// Whether each of these files has a plan.
fn are_read(alloc: Global, texts: &[&str]) -> bool {
    for text in texts {
        if read_plans(alloc, text.as_bytes()).is_err() {
            return false;
        }
    }
    true
}

static LINE: [Refusal; 8] = [
    ("line = 1", "line", ConfigWhat::Kind),
    ("[line]\ndevice = 32768", "line.device", ConfigWhat::Range),
    ("[line]\nt1 = 99", "line.t1", ConfigWhat::Range),
    ("[line]\nt2 = 25001", "line.t2", ConfigWhat::Range),
    ("[line]\nt3 = 1.5", "line.t3", ConfigWhat::Kind),
    ("[line]\nt4 = 120001", "line.t4", ConfigWhat::Range),
    ("[line]\nrty = 32", "line.rty", ConfigWhat::Range),
    (
        "[line]\nmax_body = 243\nzz = 1",
        "line.max_body",
        ConfigWhat::Range,
    ),
];

static EQUIPMENT: [Refusal; 8] = [
    ("[[equipment]]", "equipment", ConfigWhat::Kind),
    (
        "[equipment]\nmdln = \"123456789012345678901\"",
        "equipment.mdln",
        ConfigWhat::Range,
    ),
    (
        "[equipment]\nsoftrev = \"\\u00E9\"",
        "equipment.softrev",
        ConfigWhat::Range,
    ),
    (
        "[equipment]\nenable = 1",
        "equipment.enable",
        ConfigWhat::Kind,
    ),
    (
        "[equipment]\ncontrol = \"attempt\"",
        "equipment.control",
        ConfigWhat::Range,
    ),
    (
        "[equipment]\nslots = 0",
        "equipment.slots",
        ConfigWhat::Range,
    ),
    (
        "[equipment]\nspooled = [\"S1F1\", 5]",
        "equipment.spooled",
        ConfigWhat::Range,
    ),
    (
        "[equipment]\nterminals = -1",
        "equipment.terminals",
        ConfigWhat::Range,
    ),
];

static VARIABLES: [Refusal; 8] = [
    ("variable = [1]", "variable", ConfigWhat::Kind),
    ("[[variable]]", "variable.vid", ConfigWhat::Missing),
    (
        "[[variable]]\nvid = 4294967296",
        "variable.vid",
        ConfigWhat::Range,
    ),
    (
        "[[variable]]\nvid = 1\nname = 1",
        "variable.name",
        ConfigWhat::Kind,
    ),
    (
        "[[variable]]\nvid = 1",
        "variable.value",
        ConfigWhat::Missing,
    ),
    (
        "[[variable]]\nvid = 1\nvalue = \"<U1 256>\"",
        "variable.value",
        ConfigWhat::Kind,
    ),
    (
        "[[variable]]\nvid = 1\nvalue = \"<U1 1>\"\n[[variable]]\nvid = 1\nname = 1",
        "variable.vid",
        ConfigWhat::Repeated,
    ),
    (
        "[[variable]]\nvid = 1\nvalue = \"<U1 1>\"\nzz = 1",
        "variable.zz",
        ConfigWhat::Unknown,
    ),
];

static CONSTANTS: [Refusal; 8] = [
    (
        "[[constant]]\necid = 99",
        "constant.ecid",
        ConfigWhat::Range,
    ),
    (
        "[[constant]]\necid = 100\nmin = -1",
        "constant.min",
        ConfigWhat::Range,
    ),
    (
        "[[constant]]\necid = 100\nmin = 2\nmax = 1\nvalue = 1",
        "constant.value",
        ConfigWhat::Range,
    ),
    (
        "[[event]]\nceid = 1\nname = 1",
        "event.name",
        ConfigWhat::Kind,
    ),
    (
        "[[event]]\nceid = 1\n[[event]]\nceid = 1",
        "event.ceid",
        ConfigWhat::Repeated,
    ),
    (
        "[[alarm]]\nalid = 1\ncategory = 128",
        "alarm.category",
        ConfigWhat::Range,
    ),
    (
        "[[alarm]]\nalid = 1\nenabled = \"\"",
        "alarm.enabled",
        ConfigWhat::Kind,
    ),
    (
        "[[alarm]]\nalid = 1\n[[alarm]]\nalid = 1",
        "alarm.alid",
        ConfigWhat::Repeated,
    ),
];

static COMMANDS: [Refusal; 8] = [
    ("[[command]]", "command.name", ConfigWhat::Missing),
    (
        "[[command]]\nname = \"GO\"\n[[command]]\nname = \"GO\"",
        "command.name",
        ConfigWhat::Repeated,
    ),
    (
        "[[command]]\nname = \"GO\"\nlater = 0",
        "command.later",
        ConfigWhat::Kind,
    ),
    (
        "[[command]]\nname = \"GO\"\nparams = [{}]",
        "command.params",
        ConfigWhat::Missing,
    ),
    (
        "[[command]]\nname = \"GO\"\nparams = [{ name = \"P\", kind = \"U3\" }]",
        "command.params",
        ConfigWhat::Range,
    ),
    (
        "[[command]]\nname = \"GO\"\nparams = [{ name = \"P\", kind = \"A\", x = 1 }]",
        "command.params",
        ConfigWhat::Unknown,
    ),
    ("[host]\nenable = 0", "host.enable", ConfigWhat::Kind),
    ("zz = 1\n[line]\nx = 1\n[a]", "a", ConfigWhat::Unknown),
];

// One past an end of a range that the tables before do not pass.
static PAST_LINE: [Refusal; 8] = [
    ("[line]\ndevice = -1", "line.device", ConfigWhat::Range),
    ("[line]\nt1 = 10001", "line.t1", ConfigWhat::Range),
    ("[line]\nt2 = 199", "line.t2", ConfigWhat::Range),
    ("[line]\nt3 = 999", "line.t3", ConfigWhat::Range),
    ("[line]\nt3 = 120001", "line.t3", ConfigWhat::Range),
    ("[line]\nt4 = 999", "line.t4", ConfigWhat::Range),
    ("[line]\nrty = -1", "line.rty", ConfigWhat::Range),
    (
        "[line]\nmax_body = 7995149",
        "line.max_body",
        ConfigWhat::Range,
    ),
];

static PAST_EQUIPMENT: [Refusal; 7] = [
    (
        "[equipment]\nsoftrev = \"123456789012345678901\"",
        "equipment.softrev",
        ConfigWhat::Range,
    ),
    (
        "[equipment]\nslots = 1025",
        "equipment.slots",
        ConfigWhat::Range,
    ),
    (
        "[equipment]\nmax_transmit = -1",
        "equipment.max_transmit",
        ConfigWhat::Range,
    ),
    (
        "[equipment]\nmax_transmit = 4294967296",
        "equipment.max_transmit",
        ConfigWhat::Range,
    ),
    (
        "[equipment]\ndelay = 0",
        "equipment.delay",
        ConfigWhat::Range,
    ),
    (
        "[equipment]\ndelay = 121",
        "equipment.delay",
        ConfigWhat::Range,
    ),
    (
        "[equipment]\nterminals = 256",
        "equipment.terminals",
        ConfigWhat::Range,
    ),
];

static PAST_ELEMENTS: [Refusal; 10] = [
    ("[[variable]]\nvid = -1", "variable.vid", ConfigWhat::Range),
    (
        "[[constant]]\necid = 4294967296",
        "constant.ecid",
        ConfigWhat::Range,
    ),
    (
        "[[constant]]\necid = 100\nmax = 4294967296",
        "constant.max",
        ConfigWhat::Range,
    ),
    (
        "[[constant]]\necid = 100\nmin = 2\nvalue = 1",
        "constant.value",
        ConfigWhat::Range,
    ),
    ("[[event]]\nceid = -1", "event.ceid", ConfigWhat::Range),
    (
        "[[event]]\nceid = 4294967296",
        "event.ceid",
        ConfigWhat::Range,
    ),
    ("[[alarm]]\nalid = -1", "alarm.alid", ConfigWhat::Range),
    (
        "[[alarm]]\nalid = 4294967296",
        "alarm.alid",
        ConfigWhat::Range,
    ),
    (
        "[[alarm]]\nalid = 1\ncategory = -1",
        "alarm.category",
        ConfigWhat::Range,
    ),
    (
        "[[alarm]]\nalid = 1\ntext = \"12345678901234567890123456789012345678901\"",
        "alarm.text",
        ConfigWhat::Range,
    ),
];

static FITTING: [&str; 9] = [
    "",
    "[line]\ndevice = 0\nt1 = 100\nt2 = 200\nt3 = 1000\nt4 = 1000\nrty = 0\nmax_body = 244",
    "[line]\ndevice = 32767\nt1 = 10000\nt2 = 25000\nt3 = 120000\nt4 = 120000\nrty = 31\nmax_body = 7995148",
    "[equipment]\nmdln = \"\"\nslots = 1\nmax_transmit = 0\ndelay = 1\nspooled = []\nterminals = 0",
    "[equipment]\nmdln = \"12345678901234567890\"\nslots = 1024\ndelay = 120\nterminals = 255",
    "[equipment]\nsoftrev = \"\"\nmax_transmit = 4294967295\n[host]\nenable = false",
    "[[constant]]\necid = 100\nmin = 0\nmax = 0\nvalue = 0\n[[constant]]\necid = 4294967295\nvalue = 4294967295",
    "[[alarm]]\nalid = 0\ncategory = 0\n[[alarm]]\nalid = 4294967295\ncategory = 127\ntext = \"door\"",
    "[[command]]\nname = \"GO\"\nlater = true\nparams = [{ name = \"P\", kind = \"U1\", values = [\"<U1 1>\"] }]",
];

#[test]
fn lines_are_refused(rt: HostRuntime) -> Result<(), Fail> {
    assert!(rt; are_refused(rt.alloc(), &LINE));
    assert!(rt; are_refused(rt.alloc(), &EQUIPMENT));
    Ok(())
}

#[test]
fn elements_are_refused(rt: HostRuntime) -> Result<(), Fail> {
    assert!(rt; are_refused(rt.alloc(), &VARIABLES));
    assert!(rt; are_refused(rt.alloc(), &CONSTANTS));
    assert!(rt; are_refused(rt.alloc(), &COMMANDS));
    Ok(())
}

#[test]
fn ranges_have_both_ends(rt: HostRuntime) -> Result<(), Fail> {
    assert!(rt; are_read(rt.alloc(), &FITTING));
    assert!(rt; are_refused(rt.alloc(), &PAST_LINE));
    assert!(rt; are_refused(rt.alloc(), &PAST_EQUIPMENT));
    assert!(rt; are_refused(rt.alloc(), &PAST_ELEMENTS));
    Ok(())
}

fn digit(number: u32) -> u8 {
    b'0'.wrapping_add((number % 10) as u8)
}

// Variables with each VID of four digits that is below `end`.
fn variables_below(alloc: Global, end: u32) -> Result<Row<u8>, NoMemory> {
    let mut text = Row::new(alloc);
    for vid in 1_000..end {
        text.extend(b"[[variable]]\nvalue = \"<U1 1>\"\nvid = ")?;
        text.extend(&[
            digit(vid / 1_000),
            digit(vid / 100),
            digit(vid / 10),
            digit(vid),
            b'\n',
        ])?;
    }
    Ok(text)
}

fn reads_variables_below(alloc: Global, end: u32) -> Result<bool, NoMemory> {
    let text = variables_below(alloc, end)?;
    Ok(are_all_read(alloc, text.as_slice(), end))
}

// Whether each variable below `end` is read.
fn are_all_read(alloc: Global, text: &[u8], end: u32) -> bool {
    match read_plans(alloc, text) {
        Ok(plans) => plans.equipment.vars.variables.len() as u32 == end.wrapping_sub(1_000),
        Err(_) => false,
    }
}

fn refuses_variables_below(alloc: Global, end: u32) -> Result<bool, NoMemory> {
    let text = variables_below(alloc, end)?;
    Ok(is_refused(alloc, text.as_slice(), "variable", ConfigWhat::Range))
}

#[test]
fn variables_are_counted(rt: HostRuntime) -> Result<(), Fail> {
    assert!(rt; matches!(reads_variables_below(rt.alloc(), 2_024), Ok(true)));
    assert!(rt; matches!(refuses_variables_below(rt.alloc(), 2_025), Ok(true)));
    Ok(())
}

#[test]
fn syntax_comes_first(rt: HostRuntime) -> Result<(), Fail> {
    assert!(rt; is_refused(rt.alloc(), b"[line]\nrty = 32\n=", "", ConfigWhat::Syntax));
    assert!(rt; is_refused(rt.alloc(), &[0xFF], "", ConfigWhat::Syntax));
    Ok(())
}

// Whether the plans are those of a tool with one variable and one event, and of defaults for the rest.
fn is_small_tool(plans: &Plans) -> bool {
    let tool = &plans.equipment;
    tool.control == ControlState::HostOffline
        && tool.vars.variables.len() == 1
        && tool.events.as_slice() == [1].as_slice()
        && tool.mdln.as_slice() == b"GEMLINE".as_slice()
        && tool.spooled.len() == 3
        && plans.slots == 16
        && plans.host.enable
        && plans.host.line.max_body == 1_048_576
        && plans.fits()
}

#[test]
fn a_small_tool(rt: HostRuntime) -> Result<(), Fail> {
    let text =
        "[equipment]\ncontrol = \"host-offline\"\n[[variable]]\nvid = 1\nvalue = \"<U4 0>\"\n[[event]]\nceid = 1\n";
    assert!(rt; read_plans(rt.alloc(), text.as_bytes()).is_ok_and(|plans| is_small_tool(&plans)));
    Ok(())
}
