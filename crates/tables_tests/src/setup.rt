//! Lists of kept primaries: what is kept behind some, one after the other, their bytes, and bytes that break.

use gl_base::{NoMemory, Row};
use setup_store::{EntryView, NotSpool, first_entry, has_room, list_break, next_kept};
use std::alloc::Global;
use std::test::Fail;

// Primaries one after the other, each with its stream, function and body, and the places of those that are kept.
struct Course {
    primaries: &'static [(u8, u8, &'static [u8])],
    kept: &'static [usize],
}

// Reports 10 and 11, each of variable 1, and none; event 1 with report 10, and none; events 1 and 2; constants 101 and
// 102; alarms 1 and 2; and S6F11.
static COURSES: [Course; 13] = [
    Course {
        primaries: &[
            (
                2,
                33,
                &[
                    0x01, 0x02, 0xA5, 0x01, 0x00, 0x01, 0x01, 0x01, 0x02, 0xA5, 0x01, 0x0A, 0x01,
                    0x01, 0xA5, 0x01, 0x01,
                ],
            ),
            (2, 33, &[0x01, 0x02, 0xA5, 0x01, 0x00, 0x01, 0x00]),
            (
                2,
                33,
                &[
                    0x01, 0x02, 0xA5, 0x01, 0x00, 0x01, 0x01, 0x01, 0x02, 0xA5, 0x01, 0x0B, 0x01,
                    0x01, 0xA5, 0x01, 0x01,
                ],
            ),
        ],
        kept: &[2],
    },
    Course {
        primaries: &[
            (
                2,
                33,
                &[
                    0x01, 0x02, 0xA5, 0x01, 0x00, 0x01, 0x01, 0x01, 0x02, 0xA5, 0x01, 0x0A, 0x01,
                    0x01, 0xA5, 0x01, 0x01,
                ],
            ),
            (
                2,
                35,
                &[
                    0x01, 0x02, 0xA5, 0x01, 0x00, 0x01, 0x01, 0x01, 0x02, 0xA5, 0x01, 0x01, 0x01,
                    0x01, 0xA5, 0x01, 0x0A,
                ],
            ),
            (
                2,
                37,
                &[0x01, 0x02, 0x25, 0x01, 0x01, 0x01, 0x01, 0xA5, 0x01, 0x01],
            ),
            (2, 33, &[0x01, 0x02, 0xA5, 0x01, 0x00, 0x01, 0x00]),
        ],
        kept: &[2],
    },
    Course {
        primaries: &[
            (
                2,
                33,
                &[
                    0x01, 0x02, 0xA5, 0x01, 0x00, 0x01, 0x01, 0x01, 0x02, 0xA5, 0x01, 0x0A, 0x01,
                    0x01, 0xA5, 0x01, 0x01,
                ],
            ),
            (
                2,
                33,
                &[
                    0x01, 0x02, 0xA5, 0x01, 0x00, 0x01, 0x01, 0x01, 0x02, 0xA5, 0x01, 0x0B, 0x01,
                    0x01, 0xA5, 0x01, 0x01,
                ],
            ),
            (
                2,
                35,
                &[
                    0x01, 0x02, 0xA5, 0x01, 0x00, 0x01, 0x01, 0x01, 0x02, 0xA5, 0x01, 0x01, 0x01,
                    0x01, 0xA5, 0x01, 0x0A,
                ],
            ),
            (2, 35, &[0x01, 0x02, 0xA5, 0x01, 0x00, 0x01, 0x00]),
        ],
        kept: &[0, 1, 2],
    },
    Course {
        primaries: &[
            (
                2,
                15,
                &[0x01, 0x01, 0x01, 0x02, 0xA5, 0x01, 0x65, 0xA5, 0x01, 0x05],
            ),
            (
                2,
                15,
                &[
                    0x01, 0x02, 0x01, 0x02, 0xA5, 0x01, 0x66, 0xA5, 0x01, 0x01, 0x01, 0x02, 0xA5,
                    0x01, 0x65, 0xA5, 0x01, 0x07,
                ],
            ),
        ],
        kept: &[1],
    },
    Course {
        primaries: &[
            (
                2,
                15,
                &[
                    0x01, 0x02, 0x01, 0x02, 0xA5, 0x01, 0x66, 0xA5, 0x01, 0x01, 0x01, 0x02, 0xA5,
                    0x01, 0x65, 0xA5, 0x01, 0x07,
                ],
            ),
            (
                2,
                15,
                &[0x01, 0x01, 0x01, 0x02, 0xA5, 0x01, 0x65, 0xA5, 0x01, 0x05],
            ),
            (2, 15, &[0x01, 0x00]),
        ],
        kept: &[0, 1],
    },
    Course {
        primaries: &[
            (
                2,
                37,
                &[0x01, 0x02, 0x25, 0x01, 0x01, 0x01, 0x01, 0xA5, 0x01, 0x01],
            ),
            (
                2,
                37,
                &[0x01, 0x02, 0x25, 0x01, 0x01, 0x01, 0x01, 0xA5, 0x01, 0x02],
            ),
            (
                2,
                37,
                &[
                    0x01, 0x02, 0x25, 0x01, 0x01, 0x01, 0x02, 0xA5, 0x01, 0x02, 0xA5, 0x01, 0x01,
                ],
            ),
        ],
        kept: &[2],
    },
    Course {
        primaries: &[
            (
                2,
                37,
                &[0x01, 0x02, 0x25, 0x01, 0x01, 0x01, 0x01, 0xA5, 0x01, 0x01],
            ),
            (2, 37, &[0x01, 0x02, 0x25, 0x01, 0x01, 0x01, 0x00]),
            (
                2,
                37,
                &[
                    0x01, 0x02, 0x25, 0x01, 0x01, 0x01, 0x02, 0xA5, 0x01, 0x02, 0xA5, 0x01, 0x01,
                ],
            ),
        ],
        kept: &[1, 2],
    },
    Course {
        primaries: &[
            (5, 3, &[0x01, 0x02, 0x21, 0x01, 0x80, 0xA5, 0x01, 0x01]),
            (5, 3, &[0x01, 0x02, 0x21, 0x01, 0x80, 0xA5, 0x01, 0x02]),
            (5, 3, &[0x01, 0x02, 0x21, 0x01, 0x80, 0xA5, 0x01, 0x01]),
        ],
        kept: &[1, 2],
    },
    Course {
        primaries: &[
            (5, 3, &[0x01, 0x02, 0x21, 0x01, 0x80, 0xA5, 0x01, 0x01]),
            (5, 3, &[0x01, 0x02, 0x21, 0x01, 0x00, 0xA5, 0x00]),
            (5, 3, &[0x01, 0x02, 0x21, 0x01, 0x80, 0xA5, 0x01, 0x02]),
        ],
        kept: &[1, 2],
    },
    Course {
        primaries: &[
            (
                2,
                43,
                &[
                    0x01, 0x01, 0x01, 0x02, 0xA5, 0x01, 0x06, 0x01, 0x01, 0xA5, 0x01, 0x0B,
                ],
            ),
            (2, 43, &[0x01, 0x00]),
        ],
        kept: &[1],
    },
    // A body that isn't of its shape names nothing, and goes where all of its function go.
    Course {
        primaries: &[
            (
                2,
                43,
                &[
                    0x01, 0x01, 0x01, 0x02, 0xA5, 0x01, 0x06, 0x01, 0x01, 0xA5, 0x01, 0x0B,
                ],
            ),
            (2, 37, &[0x00]),
            (
                2,
                37,
                &[0x01, 0x02, 0x25, 0x01, 0x01, 0x01, 0x01, 0xA5, 0x01, 0x01],
            ),
        ],
        kept: &[0, 2],
    },
    // One of another function leaves all as it is.
    Course {
        primaries: &[
            (
                2,
                43,
                &[
                    0x01, 0x01, 0x01, 0x02, 0xA5, 0x01, 0x06, 0x01, 0x01, 0xA5, 0x01, 0x0B,
                ],
            ),
            (1, 1, &[]),
            (2, 37, &[0x01, 0x02, 0x25, 0x01, 0x01, 0x01, 0x00]),
        ],
        kept: &[0, 2],
    },
    Course {
        primaries: &[],
        kept: &[],
    },
];

// The list behind a course; `None` where it grows past what the rows here have.
fn list_behind(alloc: Global, course: &Course) -> Result<Option<Row<u8>>, NoMemory> {
    let mut list = Row::new(alloc);
    for (stream, function, body) in course.primaries {
        if list.len() > 1_000 || body.len() > 1_000 {
            return Ok(None);
        }
        let primary = EntryView {
            stream: *stream,
            function: *function,
            body,
        };
        list = next_kept(alloc, list.as_slice(), &primary)?;
    }
    Ok(Some(list))
}

// The entries of a list are these of the course.
fn are_kept(course: &Course, list: &[u8]) -> bool {
    let mut rest = list;
    for place in course.kept {
        let Some((stream, function, body)) = course.primaries.get(*place) else {
            return false;
        };
        let Some((entry, behind)) = first_entry(rest) else {
            return false;
        };
        if entry.stream != *stream || entry.function != *function || entry.body != *body {
            return false;
        }
        rest = behind;
    }
    rest.is_empty()
}

// The place of the first course that doesn't go so.
fn first_wrong(alloc: Global) -> Option<usize> {
    for i in 0..COURSES.len() {
        match list_behind(alloc, &COURSES[i]) {
            Ok(Some(list)) if are_kept(&COURSES[i], list.as_slice()) => {}
            _ => return Some(i),
        }
    }
    None
}

#[test]
fn what_is_kept_behind_each_course(rt: HostRuntime) -> Result<(), Fail> {
    assert_eq!(rt; first_wrong(rt.alloc()), None);
    Ok(())
}

#[test]
fn each_break_has_its_place(rt: HostRuntime) -> Result<(), Fail> {
    assert_eq!(rt; list_break(&[]), None);
    assert_eq!(rt; list_break(&[5, 3, 0, 0, 0, 1, 9, 2, 43, 0, 0, 0, 0]), None);
    assert_eq!(rt;
        list_break(&[3, 3]),
        Some(NotSpool {
            at: 0,
            got: Some(3)
        })
    );
    assert_eq!(rt;
        list_break(&[2, 36, 0]),
        Some(NotSpool {
            at: 1,
            got: Some(36)
        })
    );
    assert_eq!(rt;
        list_break(&[5, 33, 0]),
        Some(NotSpool {
            at: 1,
            got: Some(33)
        })
    );
    assert_eq!(rt;
        list_break(&[5, 3, 0, 0, 0, 1, 9, 0]),
        Some(NotSpool {
            at: 7,
            got: Some(0)
        })
    );
    assert_eq!(rt; list_break(&[2]), Some(NotSpool { at: 1, got: None }));
    assert_eq!(rt;
        list_break(&[2, 15, 0]),
        Some(NotSpool { at: 3, got: None })
    );
    assert_eq!(rt;
        list_break(&[2, 15, 0, 0, 0, 2, 1]),
        Some(NotSpool { at: 7, got: None })
    );
    assert_eq!(rt;
        list_break(&[2, 37, 255, 255, 255, 255, 0]),
        Some(NotSpool { at: 7, got: None })
    );
    Ok(())
}

#[test]
fn a_list_has_room_up_to_its_last_byte(rt: HostRuntime) -> Result<(), Fail> {
    let list = vec![in rt.alloc(); 0; 262_145].ok().ok_or("memory")?;
    assert!(rt; !has_room(list.as_slice()));
    assert!(rt; has_room(list.as_slice().split_at(262_144).0));
    Ok(())
}
