//! What a character and a deadline do at one end, a row each.

use Writes::{Frame, One, Quiet};
use line_end::Phase;

const T1: u64 = 500;

const T2: u64 = 10_000;

// Where an end stands as it meets a character or its deadline. `LastEot` and `LastAck` are so in the last try; `Last` is
// Gathering with one character missing; and `Settling` comes behind a wrong length, `WrongSum` behind a wrong sum.
#[derive(Clone, Copy, Debug, PartialEq, Eq)]
pub enum Case {
    Idle,
    AwaitEot,
    LastEot,
    AwaitAck,
    LastAck,
    AwaitLength,
    Gathering,
    Last,
    Settling,
    WrongSum,
}

// Which ends a row is for: both, or the slave alone.
#[derive(Clone, Copy, Debug, PartialEq, Eq)]
pub enum Ends {
    Both,
    Slave,
}

// What it writes.
#[derive(Clone, Copy, Debug, PartialEq, Eq)]
pub enum Writes {
    Quiet,
    One(u8),
    Frame,
}

// Until when it waits then.
#[derive(Clone, Copy, Debug, PartialEq, Eq)]
pub enum Waits {
    Never,
    AsBefore,
    For(u64),
}

// What it tells: that the block of S1F1 arrived, length 9, the sums 0x0105 and 0x0104; `Other` where these differ.
#[derive(Clone, Copy, Debug, PartialEq, Eq)]
pub enum Tells {
    Nothing,
    Arrived,
    Sent,
    Failed,
    Length,
    Sum,
    T1,
    T2,
    Other,
}

pub type Row = (Case, Ends, (u8, u8), Writes, Phase, Waits, Tells);

// What a character does: the first row of its case, its end and its range.
pub const CHARACTERS: [Row; 19] = [
    (
        Case::Idle,
        Ends::Both,
        (0x05, 0x05),
        One(0x04),
        Phase::AwaitLength,
        Waits::For(T2),
        Tells::Nothing,
    ),
    (
        Case::Idle,
        Ends::Both,
        (0x00, 0xFF),
        Quiet,
        Phase::Idle,
        Waits::Never,
        Tells::Nothing,
    ),
    (
        Case::AwaitEot,
        Ends::Both,
        (0x04, 0x04),
        Frame,
        Phase::AwaitAck,
        Waits::For(T2),
        Tells::Nothing,
    ),
    (
        Case::AwaitEot,
        Ends::Slave,
        (0x05, 0x05),
        One(0x04),
        Phase::AwaitLength,
        Waits::For(T2),
        Tells::Nothing,
    ),
    (
        Case::AwaitEot,
        Ends::Both,
        (0x00, 0xFF),
        Quiet,
        Phase::AwaitEot,
        Waits::AsBefore,
        Tells::Nothing,
    ),
    (
        Case::LastEot,
        Ends::Both,
        (0x04, 0x04),
        Frame,
        Phase::AwaitAck,
        Waits::For(T2),
        Tells::Nothing,
    ),
    (
        Case::LastEot,
        Ends::Slave,
        (0x05, 0x05),
        One(0x04),
        Phase::AwaitLength,
        Waits::For(T2),
        Tells::Nothing,
    ),
    (
        Case::LastEot,
        Ends::Both,
        (0x00, 0xFF),
        Quiet,
        Phase::AwaitEot,
        Waits::AsBefore,
        Tells::Nothing,
    ),
    (
        Case::AwaitAck,
        Ends::Both,
        (0x06, 0x06),
        Quiet,
        Phase::Idle,
        Waits::Never,
        Tells::Sent,
    ),
    (
        Case::AwaitAck,
        Ends::Both,
        (0x00, 0xFF),
        One(0x05),
        Phase::AwaitEot,
        Waits::For(T2),
        Tells::Nothing,
    ),
    (
        Case::LastAck,
        Ends::Both,
        (0x06, 0x06),
        Quiet,
        Phase::Idle,
        Waits::Never,
        Tells::Sent,
    ),
    (
        Case::LastAck,
        Ends::Both,
        (0x00, 0xFF),
        Quiet,
        Phase::Idle,
        Waits::Never,
        Tells::Failed,
    ),
    (
        Case::AwaitLength,
        Ends::Both,
        (0x0A, 0xFE),
        Quiet,
        Phase::Gathering,
        Waits::For(T1),
        Tells::Nothing,
    ),
    (
        Case::AwaitLength,
        Ends::Both,
        (0x00, 0xFF),
        Quiet,
        Phase::Settling,
        Waits::For(T1),
        Tells::Nothing,
    ),
    (
        Case::Gathering,
        Ends::Both,
        (0x00, 0xFF),
        Quiet,
        Phase::Gathering,
        Waits::For(T1),
        Tells::Nothing,
    ),
    (
        Case::Last,
        Ends::Both,
        (0x04, 0x04),
        One(0x06),
        Phase::Idle,
        Waits::Never,
        Tells::Arrived,
    ),
    (
        Case::Last,
        Ends::Both,
        (0x00, 0xFF),
        Quiet,
        Phase::Settling,
        Waits::For(T1),
        Tells::Nothing,
    ),
    (
        Case::Settling,
        Ends::Both,
        (0x00, 0xFF),
        Quiet,
        Phase::Settling,
        Waits::For(T1),
        Tells::Nothing,
    ),
    (
        Case::WrongSum,
        Ends::Both,
        (0x00, 0xFF),
        Quiet,
        Phase::Settling,
        Waits::For(T1),
        Tells::Nothing,
    ),
];

// What the deadline does, and when it comes.
pub type Deadline = (Case, u32, Writes, Phase, Waits, Tells);

pub const DEADLINES: [Deadline; 9] = [
    (
        Case::AwaitEot,
        11_000,
        One(0x05),
        Phase::AwaitEot,
        Waits::For(T2),
        Tells::Nothing,
    ),
    (
        Case::LastEot,
        11_000,
        Quiet,
        Phase::Idle,
        Waits::Never,
        Tells::Failed,
    ),
    (
        Case::AwaitAck,
        11_000,
        One(0x05),
        Phase::AwaitEot,
        Waits::For(T2),
        Tells::Nothing,
    ),
    (
        Case::LastAck,
        11_000,
        Quiet,
        Phase::Idle,
        Waits::Never,
        Tells::Failed,
    ),
    (
        Case::AwaitLength,
        11_000,
        One(0x15),
        Phase::Idle,
        Waits::Never,
        Tells::T2,
    ),
    (
        Case::Gathering,
        1_500,
        One(0x15),
        Phase::Idle,
        Waits::Never,
        Tells::T1,
    ),
    (
        Case::Last,
        1_500,
        One(0x15),
        Phase::Idle,
        Waits::Never,
        Tells::T1,
    ),
    (
        Case::Settling,
        1_500,
        One(0x15),
        Phase::Idle,
        Waits::Never,
        Tells::Length,
    ),
    (
        Case::WrongSum,
        1_500,
        One(0x15),
        Phase::Idle,
        Waits::Never,
        Tells::Sum,
    ),
];
