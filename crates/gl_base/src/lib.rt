//! What every layer of the link stands on: rows, the two sides, and the outside as sources and sinks of bytes and as
//! files.
#![tactic(auto)]

mod calls;
mod connections;
mod copying;
mod files;
mod input;
mod last_address;
mod link;
mod mem_files;
mod mem_link;
mod mem_sink;
mod mem_source;
mod no_memory;
mod page;
mod row;
mod side;
mod sink;
mod source;

pub use calls::Calls;
pub use connections::Connections;
pub use copying::{SinkAnswer, copy_out};
pub use files::{FileAnswer, Files, MemFile};
pub use input::{Input, read_all};
pub use last_address::LastAddress;
pub use link::{Link, LinkAnswer, LinkEntry, LinkIn};
pub use mem_files::MemFiles;
pub use mem_link::MemLink;
pub use mem_sink::MemSink;
pub use mem_source::MemSource;
pub use no_memory::NoMemory;
pub use page::{PAGE, Page};
pub use row::Row;
pub use side::Side;
pub use sink::{Sink, WriteAnswer};
pub use source::{ReadAnswer, Source};
