//! A record as its file has it.

ghost use Rattle.std.specs.Prelude.{◌≡◌, ◌++◌, IfOk};
ghost use Rattle.std.specs.Int.{to_be_bytes, w32};

use gl_base::{NoMemory, Row};
use std::alloc::Global;

/// The bytes of a record: the four system bytes of a message, the high one first, and then its text.
pub fn entry_of(alloc: Global, system: u32, body: &[u8]) -> Result<Row<u8>, NoMemory>
    ensures { IfOk result (λ entry. entry ≡ to_be_bytes w32 system ++ body.now) }
{
    let mut entry = Row::of(alloc, &system.to_be_bytes())?;
    entry.extend(body)?;
    Ok(entry)
}
