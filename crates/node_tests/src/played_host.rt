//! An equipment whose host is played by a test.

ghost use Rattle.std.specs.Prelude.{◌≡◌, ◌<◌, ◌^◌, true};
ghost use Rattle.message_end.specs.Ends.{IsEmpty, MayTake, input_of};
ghost use Rattle.trace_log.specs.Commands.{ToolCommandFits};

use crate::planned_tool::{formatted, starts};
use arrayvec::ArrayVec;
use block_codec::{Block, Header, frame_of};
use disk_base::MemDisk;
use equipment_node::Equipment;
use gem_recipes::{NoRecipes, RecipeKeeper};
use gl_base::Row;
use message_flow::{NodeInput, StepOut};
use secs_items::Item;
use std::alloc::Global;
use trace_log::ToolCommand;

pub(crate) const ENQ: u8 = 0x05;

const EOT: u8 = 0x04;

const ACK: u8 = 0x06;

/// What the equipment is given. The host takes all that it wants to send then.
pub(crate) enum Given {
    Time,
    // Its tool sets variable 1 to this, has this event, sets alarm 7, and changes communication and control.
    Set(u32),
    Event(u32),
    Alarm,
    Disable,
    Enable,
    Offline,
    Online,
    Local,
    // Event 1 so many times, one behind the other.
    Events(u32),
    // The host sends a message of one block: stream, function, W, system bytes and text.
    Sent(u8, u8, bool, u32, &'static [u8]),
    // A block of the host: stream, function and W; system bytes; its number, and whether it is the last one; text.
    Part((u8, u8, bool), u32, (u16, bool), &'static [u8]),
    // S1F1 of another side or device: whether from the equipment, device, system bytes.
    Foreign(bool, u16, u32),
    // The host begins so many messages, each of two blocks at least.
    Begin(u32),
    // S2F33 of the host, which defines a report of so many times variable 1.
    Define(u8),
    // S2F23 of the host: its system bytes; TRID, TOTSMP, REPGSZ, and so many times variable 1 each second.
    Trace(u32, [u8; 4]),
    // So many S2F23 of the host, the first of TRID 1 and with the system bytes 1: one sample of nothing, in a second.
    Traces(u8),
    // Nothing: it acts next at this moment.
    ActsAt(u64),
}

/// What it notes then: these lines, or what begins so.
pub(crate) enum Text {
    Whole(&'static [u8]),
    Front(&'static [u8]),
}

pub(crate) const NOTHING: Text = Text::Whole(b"");

/// What S2F23 of TRID 1 notes that is the host's first message.
pub(crate) const TAKEN: Text = Text::Front(b"rx S2F23 W 00000001 0105A501014106303030303031A501");

/// A step, or a message, at a moment.
pub(crate) struct Case {
    pub(crate) now: u64,
    pub(crate) given: Given,
    pub(crate) text: Text,
}

/// Its S1F13 is accepted.
pub(crate) static ESTABLISHES: [Case; 2] = [
    Case {
        now: 0,
        given: Given::Time,
        text: Text::Whole(b"comms WAIT-CRA\nsent S1F13 W 00000000 0102410747454D4C494E45410131\n"),
    },
    Case {
        now: 0,
        given: Given::Sent(1, 14, false, 0, &[0x01, 0x02, 0x21, 0x01, 0x00, 0x01, 0x00]),
        text: Text::Whole(b"rx S1F14 00000000 01022101000100\ncomms COMMUNICATING\n"),
    },
];

// The host sets it on-line.
pub(crate) static GOES_ONLINE: [Case; 1] = [Case {
    now: 0,
    given: Given::Sent(1, 17, true, 0, &[]),
    text: Text::Front(b"rx S1F17 W 00000000 -\n"),
}];

// Report 10 is linked to event 1.
const IS_LINKED: Case = Case {
    now: 0,
    given: Given::Sent(
        2,
        35,
        true,
        2,
        &[
            0x01, 0x02, 0xA5, 0x01, 0x02, 0x01, 0x01, 0x01, 0x02, 0xA5, 0x01, 0x01, 0x01, 0x01,
            0xA5, 0x01, 0x0A,
        ],
    ),
    text: Text::Whole(
        b"rx S2F35 W 00000002 0102A5010201010102A501010101A5010A\nkeeping S2F35 W\nkept S2F35 W\n\
        sent S2F36 00000002 210100\n",
    ),
};

// Event 1 is enabled.
const IS_ENABLED: Case = Case {
    now: 0,
    given: Given::Sent(2, 37, true, 3, &[0x01, 0x02, 0x25, 0x01, 0x01, 0x01, 0x00]),
    text: Text::Whole(
        b"rx S2F37 W 00000003 01022501010100\nkeeping S2F37 W\nkept S2F37 W\nsent S2F38 00000003 210100\n",
    ),
};

// Event 1 reports variable 1.
pub(crate) static REPORTS_ONE: [Case; 3] = [
    Case {
        now: 0,
        given: Given::Define(1),
        text: Text::Whole(
            b"rx S2F33 W 00000001 0102A5010101010102A5010A0101A50101\nkeeping S2F33 W\nkept S2F33 W\n\
            sent S2F34 00000001 210100\n",
        ),
    },
    IS_LINKED,
    IS_ENABLED,
];

// Event 1 reports variable 1 sixty times.
pub(crate) static REPORTS_MANY: [Case; 3] = [
    Case {
        now: 0,
        given: Given::Define(60),
        text: Text::Front(b"rx S2F33 W 00000001 0102A5010101010102A5010A013CA50101A50101"),
    },
    IS_LINKED,
    IS_ENABLED,
];

// It asks for a grant first where the report is of several blocks.
pub(crate) static ASKS: [Case; 1] = [Case {
    now: 0,
    given: Given::Event(1),
    text: Text::Front(b"event 1 0\nsent S6F5 W 00000001 0102B10400000000B104"),
}];

pub(crate) fn nothing_yet(alloc: Global) -> StepOut
    ensures { IsEmpty result }
{
    StepOut {
        line: ArrayVec::new(),
        notes: Row::new(alloc),
    }
}

/// Adds the lines that were noted; `false` where memory ran out.
pub(crate) fn keeps(text: &mut Row<u8>, out: &StepOut) -> bool {
    for note in out.notes.as_slice() {
        if text.extend(note.text.as_slice()).is_err() || text.push(b'\n').is_err() {
            return false;
        }
    }
    true
}

fn last_of(out: &StepOut) -> u8 {
    match out.line.last() {
        Some(byte) => *byte,
        None => 0,
    }
}

// One step. The answer is the last character that it wrote, or 0; `None` where memory ran out.
fn steps<K: RecipeKeeper + Drop>(
    alloc: Global,
    equipment: &mut Option<Equipment<MemDisk, K>>,
    input: NodeInput<'_, ToolCommand>,
    now: u64,
    text: &mut Row<u8>,
) -> Option<u8>
    requires now { now < 2 ^ 62 }
    requires input { MayTake ToolCommandFits (input_of input) }
{
    let Some(old) = equipment.take() else {
        return None;
    };
    let mut out = nothing_yet(alloc);
    let Ok(new) = old.step(alloc, input, now, &mut out) else {
        return None;
    };
    *equipment = Some(new);
    if !keeps(text, &out) {
        return None;
    }
    Some(last_of(&out))
}

// Its host lets it send a block.
fn lets_send<K: RecipeKeeper + Drop>(
    alloc: Global,
    equipment: &mut Option<Equipment<MemDisk, K>>,
    now: u64,
    text: &mut Row<u8>,
) -> Option<u8>
    requires { now < 2 ^ 62 }
{
    match steps(alloc, equipment, NodeInput::Char(EOT), now, text) {
        Some(_) => steps(alloc, equipment, NodeInput::Char(ACK), now, text),
        None => None,
    }
}

// The host takes all that it wants to send, where its last character asks for the line.
fn listens<K: RecipeKeeper + Drop>(
    alloc: Global,
    equipment: &mut Option<Equipment<MemDisk, K>>,
    now: u64,
    text: &mut Row<u8>,
    asked: Option<u8>,
) -> bool
    requires { now < 2 ^ 62 }
{
    let mut last = asked;
    for _ in 0..100 {
        match last {
            Some(ENQ) => last = lets_send(alloc, equipment, now, text),
            Some(_) => return true,
            None => return false,
        }
    }
    false
}

// The host sends these characters. The answer is the last one that it wrote then.
fn takes<K: RecipeKeeper + Drop>(
    alloc: Global,
    equipment: &mut Option<Equipment<MemDisk, K>>,
    characters: &[u8],
    now: u64,
    text: &mut Row<u8>,
) -> Option<u8>
    requires { now < 2 ^ 62 }
{
    let mut last = None;
    for &character in characters {
        last = steps(alloc, equipment, NodeInput::Char(character), now, text);
        if last.is_none() {
            return None;
        }
    }
    last
}

/// A text that fills a block.
pub(crate) const LONG: &[u8] = &[0; 244];

/// The only block of a message.
pub(crate) const WHOLE: (u16, bool) = (1, true);

/// A block of the host.
pub(crate) fn block(
    name: (u8, u8, bool),
    system: u32,
    place: (u16, bool),
    body: &[u8],
) -> Option<Block> {
    let header = Header {
        from_equipment: false,
        device: 0,
        wait: name.2,
        stream: name.0,
        function: name.1,
        last: place.1,
        number: place.0,
        system,
    };
    Block::new(header, body)
}

// S1F1 of another side or device.
fn foreign(from_equipment: bool, device: u16, system: u32) -> Option<Block> {
    let header = Header {
        from_equipment,
        device,
        wait: true,
        stream: 1,
        function: 1,
        last: true,
        number: 1,
        system,
    };
    Block::new(header, &[])
}

// The host sends a block, and takes all that it wants to send then.
fn hears<K: RecipeKeeper + Drop>(
    alloc: Global,
    equipment: &mut Option<Equipment<MemDisk, K>>,
    block: Option<Block>,
    now: u64,
    text: &mut Row<u8>,
) -> bool
    requires { now < 2 ^ 62 }
{
    let Some(block) = block else {
        return false;
    };
    let asked = steps(alloc, equipment, NodeInput::Char(ENQ), now, text);
    if asked.is_none() {
        return false;
    }
    let frame = frame_of(&block);
    let last = takes(alloc, equipment, frame.as_slice(), now, text);
    listens(alloc, equipment, now, text, last)
}

// Its tool does something.
fn obeys<K: RecipeKeeper + Drop>(
    alloc: Global,
    equipment: &mut Option<Equipment<MemDisk, K>>,
    command: &ToolCommand,
    now: u64,
    text: &mut Row<u8>,
) -> bool
    requires { now < 2 ^ 62 }
{
    if !command.fits() {
        return false;
    }
    let last = steps(alloc, equipment, NodeInput::Command(command), now, text);
    listens(alloc, equipment, now, text, last)
}

fn setting(alloc: Global, value: u32) -> Option<ToolCommand> {
    match Item::number(alloc, value) {
        Ok(item) => Some(ToolCommand::Set(1, item)),
        Err(_) => None,
    }
}

// A body that ends with so many times variable 1.
fn naming(alloc: Global, front: &[u8], count: u8) -> Option<Row<u8>> {
    let Ok(mut body) = Row::of(alloc, front) else {
        return None;
    };
    for _ in 0..count {
        if body.extend(&[0xA5, 0x01, 0x01]).is_err() {
            return None;
        }
    }
    Some(body)
}

// S2F33: report 10 is so many times variable 1.
fn definition(alloc: Global, count: u8) -> Option<Row<u8>> {
    let front = [
        0x01, 0x02, 0xA5, 0x01, 0x01, 0x01, 0x01, 0x01, 0x02, 0xA5, 0x01, 0x0A, 0x01, count,
    ];
    naming(alloc, &front, count)
}

fn defines<K: RecipeKeeper + Drop>(
    alloc: Global,
    equipment: &mut Option<Equipment<MemDisk, K>>,
    count: u8,
    now: u64,
    text: &mut Row<u8>,
) -> bool
    requires { now < 2 ^ 62 }
{
    let Some(body) = definition(alloc, count) else {
        return false;
    };
    hears(
        alloc,
        equipment,
        block((2, 33, true), 1, WHOLE, body.as_slice()),
        now,
        text,
    )
}

// S2F23: so many times variable 1, each second.
fn tracing(alloc: Global, asked: [u8; 4]) -> Option<Row<u8>> {
    let [trid, total, group, count] = asked;
    let front = [
        0x01, 0x05, 0xA5, 0x01, trid, 0x41, 0x06, 0x30, 0x30, 0x30, 0x30, 0x30, 0x31, 0xA5, 0x01,
        total, 0xA5, 0x01, group, 0x01, count,
    ];
    naming(alloc, &front, count)
}

fn traces<K: RecipeKeeper + Drop>(
    alloc: Global,
    equipment: &mut Option<Equipment<MemDisk, K>>,
    system: u32,
    asked: [u8; 4],
    now: u64,
    text: &mut Row<u8>,
) -> bool
    requires { now < 2 ^ 62 }
{
    let Some(body) = tracing(alloc, asked) else {
        return false;
    };
    let block = block((2, 23, true), system, WHOLE, body.as_slice());
    hears(alloc, equipment, block, now, text)
}

// The host sets so many traces.
fn sets_traces<K: RecipeKeeper + Drop>(
    alloc: Global,
    equipment: &mut Option<Equipment<MemDisk, K>>,
    count: u8,
    now: u64,
    text: &mut Row<u8>,
) -> bool
    requires { now < 2 ^ 62 }
{
    for before in 0..count {
        let trid = before.saturating_add(1);
        let asked = [trid, 1, 1, 0];
        if !traces(alloc, equipment, u32::from(trid), asked, now, text) {
            return false;
        }
    }
    true
}

// Its tool has event 1 so many times.
fn has_events<K: RecipeKeeper + Drop>(
    alloc: Global,
    equipment: &mut Option<Equipment<MemDisk, K>>,
    count: u32,
    now: u64,
    text: &mut Row<u8>,
) -> bool
    requires { now < 2 ^ 62 }
{
    for _ in 0..count {
        if !obeys(alloc, equipment, &ToolCommand::Event(1), now, text) {
            return false;
        }
    }
    true
}

// The host begins so many messages.
fn begins<K: RecipeKeeper + Drop>(
    alloc: Global,
    equipment: &mut Option<Equipment<MemDisk, K>>,
    count: u32,
    now: u64,
    text: &mut Row<u8>,
) -> bool
    requires { now < 2 ^ 62 }
{
    for system in 0..count {
        let first = block((1, 3, true), system, (1, false), &[]);
        if !hears(alloc, equipment, first, now, text) {
            return false;
        }
    }
    true
}

fn is_done<K: RecipeKeeper + Drop>(
    alloc: Global,
    equipment: &mut Option<Equipment<MemDisk, K>>,
    given: &Given,
    now: u64,
    text: &mut Row<u8>,
) -> bool
    requires { now < 2 ^ 62 }
{
    match given {
        Given::Time => {
            let last = steps(alloc, equipment, NodeInput::Time, now, text);
            listens(alloc, equipment, now, text, last)
        }
        Given::Set(value) => match setting(alloc, *value) {
            Some(command) => obeys(alloc, equipment, &command, now, text),
            None => false,
        },
        Given::Event(ceid) => obeys(alloc, equipment, &ToolCommand::Event(*ceid), now, text),
        Given::Alarm => obeys(alloc, equipment, &ToolCommand::Alarm(7, true), now, text),
        Given::Events(count) => has_events(alloc, equipment, *count, now, text),
        Given::Disable => obeys(alloc, equipment, &ToolCommand::Disable, now, text),
        Given::Enable => obeys(alloc, equipment, &ToolCommand::Enable, now, text),
        Given::Offline => obeys(alloc, equipment, &ToolCommand::Offline, now, text),
        Given::Online => obeys(alloc, equipment, &ToolCommand::Online, now, text),
        Given::Local => obeys(alloc, equipment, &ToolCommand::Local, now, text),
        Given::Sent(stream, function, wait, system, body) => {
            let block = block((*stream, *function, *wait), *system, WHOLE, body);
            hears(alloc, equipment, block, now, text)
        }
        Given::Part(name, system, place, body) => {
            let block = block(*name, *system, *place, body);
            hears(alloc, equipment, block, now, text)
        }
        Given::Foreign(from_equipment, device, system) => {
            let block = foreign(*from_equipment, *device, *system);
            hears(alloc, equipment, block, now, text)
        }
        Given::Begin(count) => begins(alloc, equipment, *count, now, text),
        Given::Define(count) => defines(alloc, equipment, *count, now, text),
        Given::Trace(system, asked) => traces(alloc, equipment, *system, *asked, now, text),
        Given::Traces(count) => sets_traces(alloc, equipment, *count, now, text),
        Given::ActsAt(at) => acts_at(equipment) == Some(*at),
    }
}

fn is_text(text: &[u8], wanted: &Text) -> bool {
    match wanted {
        Text::Whole(all) => text == *all,
        Text::Front(front) => text.starts_with(front),
    }
}

// When it next acts by itself.
fn acts_at<K: RecipeKeeper + Drop>(equipment: &Option<Equipment<MemDisk, K>>) -> Option<u64> {
    match equipment {
        Some(equipment) => equipment.deadline(),
        None => None,
    }
}

fn goes<K: RecipeKeeper + Drop>(
    alloc: Global,
    equipment: &mut Option<Equipment<MemDisk, K>>,
    case: &Case,
) -> bool {
    let now = case.now.min(1_000_000);
    let mut text = Row::new(alloc);
    is_done(alloc, equipment, &case.given, now, &mut text) && is_text(text.as_slice(), &case.text)
}

/// Whether it goes through all of this.
pub(crate) fn go_all<K: RecipeKeeper + Drop>(
    alloc: Global,
    equipment: &mut Option<Equipment<MemDisk, K>>,
    cases: &[Case],
) -> bool {
    for case in cases {
        if !goes(alloc, equipment, case) {
            return false;
        }
    }
    true
}

/// An equipment that has started with a keeper of recipes.
pub(crate) fn started<K: RecipeKeeper + Drop>(
    alloc: Global,
    keeper: K,
) -> Option<Equipment<MemDisk, K>>
    requires { K.offers_is keeper ≡ true → K.sound keeper }
{
    let spool = formatted(alloc, 2)?;
    match starts(alloc, spool.retire().into_raw(), keeper) {
        Some((equipment, _)) => Some(equipment),
        None => None,
    }
}

/// Whether an equipment that has started with a keeper of recipes goes through all of this.
pub(crate) fn runs_with<K: RecipeKeeper + Drop>(
    alloc: Global,
    keeper: K,
    stages: &[&[Case]],
) -> bool
    requires { K.offers_is keeper ≡ true → K.sound keeper }
{
    let mut equipment = started(alloc, keeper);
    for stage in stages {
        if !go_all(alloc, &mut equipment, stage) {
            return false;
        }
    }
    true
}

/// The same with one that offers no recipes.
pub(crate) fn runs(alloc: Global, stages: &[&[Case]]) -> bool {
    runs_with(alloc, NoRecipes, stages)
}
