//! A primary before it has system bytes, as the layers above hand it over.

use gl_base::Row;

/// A primary that isn't sent yet: it has no system bytes.
#[derive(Debug, Drop)]
pub struct Unsent<K> {
    /// The stream, below 128.
    pub stream: u8,
    /// The function, an odd one.
    pub function: u8,
    /// The kind of the transaction that it begins, where its sender awaits a reply.
    pub kind: Option<K>,
    /// The text: at most 7,995,148 bytes.
    pub body: Row<u8>,
}
