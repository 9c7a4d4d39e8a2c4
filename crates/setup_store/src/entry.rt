//! One primary that is kept.

ghost use Rattle.std.specs.Prelude.{◌≡◌, ◌≤◌, ◌++◌, length, OnOk};
ghost use Rattle.setup_store.specs.Entries.{entry_bytes, entry_of, is_kept, is_kept_stream};
ghost use Rattle.setup_store.specs.Kept.{is_of};

use gl_base::{NoMemory, Row};

/// A primary of the host as it is kept. Its body stands in the bytes of a list.
#[derive(Clone, Copy, Debug)]
pub struct EntryView<'a> {
    pub stream: u8,
    pub function: u8,
    pub body: &'a [u8],
}

impl EntryView<'_> {
    pub(crate) fn is_of(&self, stream: u8, function: u8) -> bool
        ensures { result ≡ is_of stream function (entry_of self.now) }
    {
        self.stream == stream && self.function == function
    }

    /// Puts its bytes at the end of a list.
    pub(crate) fn put(&self, list: &mut Row<u8>) -> Result<(), NoMemory>
        requires { length self.now.body.now ≤ 7995148 }
        ensures { OnOk result (list.new ≡ list.old ++ entry_bytes (entry_of self.now)) }
    {
        list.push(self.stream)?;
        list.push(self.function)?;
        list.extend(&(self.body.len() as u32).to_be_bytes())?;
        list.extend(self.body)
    }
}

/// Whether primaries of this stream are kept.
pub(crate) fn is_kept_stream(stream: u8) -> bool
    ensures { result ≡ is_kept_stream stream }
{
    matches!(stream, 2 | 5)
}

/// Whether a primary of this stream and function is kept: it is one of S2F15, S2F33, S2F35, S2F37, S2F43 and S5F3.
pub fn is_kept(stream: u8, function: u8) -> bool
    ensures { result ≡ is_kept stream function }
{
    matches!((stream, function), (2, 15 | 33 | 35 | 37 | 43) | (5, 3))
}
