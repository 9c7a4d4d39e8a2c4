//! The run of a host over a link that wants what is expected: how it ends, its lines, and what it asked of its link.

use crate::host_runs::{Hosting, NO_SCRIPT, is_hosting_over};
use crate::played_program::{End, is_due};
use gl_base::{Connections, Link, LinkAnswer, LinkEntry, LinkIn, Side};
use std::alloc::Global;

// The last moment of all, up to which an end waits that has nothing to do.
const LAST: u64 = 4_611_686_018_427_387_903;

/// What is still to come over the link, and whether all that came till now was that.
#[derive(Drop)]
struct Expected {
    all: &'static [LinkEntry],
    at: usize,
    right: bool,
}

impl Expected {
    fn take(&mut self, entry: LinkEntry) {
        match self.all.get(self.at) {
            Some(next) => self.right = self.right && *next == entry,
            None => self.right = false,
        }
        self.at = self.at.saturating_add(1);
    }

    fn take_sent(&mut self, bytes: &[u8]) {
        for byte in bytes {
            self.take(LinkEntry::Sent(*byte));
        }
    }

    fn is_met(&self) -> bool {
        self.right && self.at == self.all.len()
    }
}

/// A link that gives characters and quiet times, each at its moment, and then is closed. It wants to be connected,
/// once, as the host and to the address, before all else.
#[derive(Drop)]
struct TestLink {
    events: &'static [(Option<u8>, u64)],
    at: usize,
    moment: u64,
    connects: u32,
    connections: Connections,
    fails: u32,
    list: Expected,
}

impl Link for TestLink {
    ghost use Rattle.std.specs.Prelude.{None, false};

    ghost told = { λ _. None };

    ghost moment = { λ s. s.moment };

    ghost health = { λ _. record { faults = 18446744073709551615; reliable = false; room = 0 } };

    ghost connected = { λ s. s.connections };

    fn connect(&mut self, side: Side, address: &str) -> LinkAnswer {
        self.connections.add(side, address);
        self.moment = 0;
        self.connects = self.connects.saturating_add(1);
        if is_due(&mut self.fails) || side == Side::Equipment || address != "peer" {
            return LinkAnswer::Failed;
        }
        LinkAnswer::Done
    }

    fn poll(&mut self, until: u64) -> LinkIn {
        if is_due(&mut self.fails) || self.connects != 1 {
            return LinkIn::Failed;
        }
        let Some(event) = self.events.get(self.at) else {
            self.list.take(LinkEntry::Polled {
                until,
                answer: LinkIn::Closed,
            });
            return LinkIn::Closed;
        };
        let (byte, now) = *event;
        if now < self.moment || now > LAST {
            return LinkIn::Failed;
        }
        let is_later = self.moment < now;
        self.at = self.at.saturating_add(1);
        match byte {
            Some(byte) => {
                self.moment = now;
                self.list.take(LinkEntry::Polled {
                    until,
                    answer: LinkIn::Char(byte, now),
                });
                LinkIn::Char(byte, now)
            }
            None => {
                if !is_later {
                    return LinkIn::Failed;
                }
                self.moment = now;
                self.list.take(LinkEntry::Polled {
                    until,
                    answer: LinkIn::Quiet(now),
                });
                LinkIn::Quiet(now)
            }
        }
    }

    fn send(&mut self, bytes: &[u8]) -> LinkAnswer {
        if is_due(&mut self.fails) || self.connects != 1 {
            return LinkAnswer::Failed;
        }
        self.list.take_sent(bytes);
        LinkAnswer::Done
    }
}

/// A run of the host, what comes over the link, and the link's list.
struct Case {
    hosting: Hosting,
    events: &'static [(Option<u8>, u64)],
    list: &'static [LinkEntry],
}

fn goes(alloc: Global, case: &Case) -> bool {
    let mut link = TestLink {
        events: case.events,
        at: 0,
        moment: 0,
        connects: 0,
        connections: Connections::none(),
        fails: case.hosting.3[3],
        list: Expected {
            all: case.list,
            at: 0,
            right: true,
        },
    };
    is_hosting_over(alloc, &mut link, &case.hosting) && link.list.is_met()
}

// The number of the first row that doesn't go so, or how many there are.
fn first_wrong(alloc: Global, cases: &[Case]) -> usize {
    let mut at: usize = 0;
    for case in cases {
        if !goes(alloc, case) {
            return at;
        }
        at = at.saturating_add(1);
    }
    at
}

const ONE_POLL: &[&str] = &["host", "plan", "peer", "--polls=1"];

const TWO_POLLS: &[&str] = &["host", "plan", "peer", "--polls=2"];

const NINE_POLLS: &[&str] = &["host", "plan", "peer", "--polls=9"];

const CLOSED: LinkEntry = LinkEntry::Polled {
    until: LAST,
    answer: LinkIn::Closed,
};

const QUIET: LinkEntry = LinkEntry::Polled {
    until: LAST,
    answer: LinkIn::Quiet(10),
};

const ASKED: LinkEntry = LinkEntry::Polled {
    until: LAST,
    answer: LinkIn::Char(5, 0),
};

// Runs that the link ends, or the number of polls.
static BY_LINK: [Case; 5] = [
    // No event.
    Case {
        hosting: (
            ONE_POLL,
            b"",
            NO_SCRIPT,
            [0, 0, 0, 0],
            (0, "0 H start\n0 H closed\n", ""),
        ),
        events: &[],
        list: &[CLOSED],
    },
    // It doesn't connect.
    Case {
        hosting: (
            ONE_POLL,
            b"",
            NO_SCRIPT,
            [0, 0, 0, 1],
            (69, "0 H start\n", "gemline: 69 link\n"),
        ),
        events: &[],
        list: &[],
    },
    // One poll and no more.
    Case {
        hosting: (
            ONE_POLL,
            b"",
            NO_SCRIPT,
            [0, 0, 0, 0],
            (75, "0 H start\n", "gemline: 75 turns\n"),
        ),
        events: &[(None, 10)],
        list: &[QUIET],
    },
    // The second poll fails.
    Case {
        hosting: (
            TWO_POLLS,
            b"",
            NO_SCRIPT,
            [0, 0, 0, 3],
            (69, "0 H start\n", "gemline: 69 link\n"),
        ),
        events: &[(None, 10)],
        list: &[QUIET],
    },
    // Closed behind an answer.
    Case {
        hosting: (
            TWO_POLLS,
            b"",
            NO_SCRIPT,
            [0, 0, 0, 0],
            (0, "0 H start\n10 H closed\n", ""),
        ),
        events: &[(None, 10)],
        list: &[QUIET, CLOSED],
    },
];

// Lines are written before characters are sent.
static BY_STEP: [Case; 4] = [
    Case {
        hosting: (
            ONE_POLL,
            b"",
            NO_SCRIPT,
            [0, 0, 0, 0],
            (75, "0 H start\n0 H tx 04\n", "gemline: 75 turns\n"),
        ),
        events: &[(Some(5), 0)],
        list: &[ASKED, LinkEntry::Sent(4)],
    },
    // The sending fails.
    Case {
        hosting: (
            TWO_POLLS,
            b"",
            NO_SCRIPT,
            [0, 0, 0, 3],
            (69, "0 H start\n0 H tx 04\n", "gemline: 69 link\n"),
        ),
        events: &[(Some(5), 0)],
        list: &[ASKED],
    },
    // The output fails in the step that sends, and at the start.
    Case {
        hosting: (
            TWO_POLLS,
            b"",
            NO_SCRIPT,
            [0, 0, 2, 0],
            (73, "0 H start\n", "gemline: 73 write\n"),
        ),
        events: &[(Some(5), 0)],
        list: &[ASKED],
    },
    Case {
        hosting: (
            TWO_POLLS,
            b"",
            NO_SCRIPT,
            [0, 0, 1, 0],
            (73, "", "gemline: 73 write\n"),
        ),
        events: &[(Some(5), 0)],
        list: &[],
    },
];

// Lines of a script are given when they are due.
static BY_SCRIPT: [Case; 4] = [
    Case {
        hosting: (
            NINE_POLLS,
            b"",
            (b"5 send S1F1 W -\n20 stop\n25 send S1F1 W -\n", b"", 1, b""),
            [0, 0, 0, 0],
            (
                0,
                "0 H start\n10 H sent S1F1 W 00000000 -\n10 H tx 05\n",
                "",
            ),
        ),
        events: &[(None, 10), (None, 30)],
        list: &[
            LinkEntry::Polled {
                until: 5,
                answer: LinkIn::Quiet(10),
            },
            LinkEntry::Sent(5),
            LinkEntry::Polled {
                until: 20,
                answer: LinkIn::Quiet(30),
            },
        ],
    },
    // Two are due by one answer.
    Case {
        hosting: (
            ONE_POLL,
            b"",
            (b"5 send S1F1 W -\n5 send S1F1 W -\n", b"", 1, b""),
            [0, 0, 0, 0],
            (
                75,
                "0 H start\n10 H sent S1F1 W 00000000 -\n10 H tx 05\n10 H sent S1F1 W 00000001 -\n",
                "gemline: 75 turns\n",
            ),
        ),
        events: &[(None, 10)],
        list: &[
            LinkEntry::Polled {
                until: 5,
                answer: LinkIn::Quiet(10),
            },
            LinkEntry::Sent(5),
        ],
    },
    // A character comes as the script stops the end: it isn't given.
    Case {
        hosting: (
            NINE_POLLS,
            b"",
            (b"5 stop\n", b"", 1, b""),
            [0, 0, 0, 0],
            (0, "0 H start\n", ""),
        ),
        events: &[(Some(5), 7)],
        list: &[LinkEntry::Polled {
            until: 5,
            answer: LinkIn::Char(5, 7),
        }],
    },
    // A quiet time is over early: no line is due, and the next poll asks for the same moment.
    Case {
        hosting: (
            TWO_POLLS,
            b"",
            (b"50 send S1F1 W -\n", b"", 1, b""),
            [0, 0, 0, 0],
            (
                75,
                "0 H start\n50 H sent S1F1 W 00000000 -\n50 H tx 05\n",
                "gemline: 75 turns\n",
            ),
        ),
        events: &[(None, 20), (None, 50)],
        list: &[
            LinkEntry::Polled {
                until: 50,
                answer: LinkIn::Quiet(20),
            },
            LinkEntry::Polled {
                until: 50,
                answer: LinkIn::Quiet(50),
            },
            LinkEntry::Sent(5),
        ],
    },
];

#[test]
fn the_link_or_the_number_of_polls_ends_a_run(rt: HostRuntime) {
    assert!(rt; first_wrong(rt.alloc(), &BY_LINK) == 5);
}

#[test]
fn lines_are_written_before_characters_are_sent(rt: HostRuntime) {
    assert!(rt; first_wrong(rt.alloc(), &BY_STEP) == 4);
}

#[test]
fn lines_of_a_script_are_given_when_they_are_due(rt: HostRuntime) {
    assert!(rt; first_wrong(rt.alloc(), &BY_SCRIPT) == 4);
}

/// A link that gives each character once, all at moment 0, and then is closed. All that may be sent is one 04, behind
/// the sixth character.
#[derive(Drop)]
struct AllCharacters {
    next: u16,
    sent: bool,
    right: bool,
    connections: Connections,
}

impl Link for AllCharacters {
    ghost use Rattle.std.specs.Prelude.{None, false};

    ghost told = { λ _. None };

    ghost moment = { λ _. 0 };

    ghost health = { λ _. record { faults = 18446744073709551615; reliable = false; room = 0 } };

    ghost connected = { λ s. s.connections };

    fn connect(&mut self, side: Side, address: &str) -> LinkAnswer {
        self.connections.add(side, address);
        LinkAnswer::Done
    }

    fn poll(&mut self, _until: u64) -> LinkIn {
        match u8::try_from(self.next) {
            Ok(byte) => {
                self.next += 1;
                LinkIn::Char(byte, 0)
            }
            Err(_) => LinkIn::Closed,
        }
    }

    fn send(&mut self, bytes: &[u8]) -> LinkAnswer {
        self.right = self.right && !self.sent && self.next == 6 && bytes == [4].as_slice();
        self.sent = true;
        LinkAnswer::Done
    }
}

/// Whether a disabled host that is given all characters within so many polls ends so.
fn waits_out(alloc: Global, words: &'static [&'static str], end: End<'static>) -> bool {
    let mut link = AllCharacters {
        next: 0,
        sent: false,
        right: true,
        connections: Connections::none(),
    };
    let case: Hosting = (
        words,
        b"[host]\nenable = false",
        NO_SCRIPT,
        [0, 0, 0, 0],
        end,
    );
    is_hosting_over(alloc, &mut link, &case) && link.sent && link.right
}

#[test]
fn a_disabled_host_answers_enq_and_waits_the_rest_out(rt: HostRuntime) {
    assert!(rt;
        waits_out(
            rt.alloc(),
            &["host", "plan", "peer", "--polls=1000"],
            (0, "0 H start\n0 H tx 04\n0 H closed\n", "")
        )
    );
    assert!(rt;
        waits_out(
            rt.alloc(),
            &["host", "plan", "peer", "--polls=256"],
            (75, "0 H start\n0 H tx 04\n", "gemline: 75 turns\n")
        )
    );
}
