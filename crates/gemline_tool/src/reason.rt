//! What the system has said of a call that failed, as text.

use arrayvec::ArrayString;
use std::fmt::Write;
use std::io;

/// What the system has said, in 255 bytes at most, or nothing.
#[derive(Drop)]
pub(crate) struct Reason {
    text: ArrayString<255>,
}

impl Reason {
    pub(crate) fn none() -> Reason {
        Reason::of(None)
    }

    pub(crate) fn of(error: Option<&io::Error>) -> Reason {
        let mut text = ArrayString::new();
        if let Some(error) = error {
            // (a longer one is cut)
            let _ = write!(text, "{error}");
        }
        Reason { text }
    }

    pub(crate) fn as_bytes(&self) -> &[u8] {
        self.text.as_bytes()
    }
}
