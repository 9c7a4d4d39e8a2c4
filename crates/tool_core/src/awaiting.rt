//! Messages of the tool that await something, each kept under the system bytes of its transaction: how one is found by
//! these.

ghost use Rattle.std.specs.Prelude.{◌≡◌, ◌<◌, ℕ, ◌==◌, length, IfOk, IfSome};
ghost use Rattle.std.specs.List.{find, position, position_or_len, remove};
ghost use Rattle.std.specs.Option.{option_map};
ghost use Rattle.trace_log.specs.Names.{Spooled};

use crate::spoolable::Spoolable;
use gl_base::NoMemory;
use std::alloc::Global;

/// A message that awaits something: its grant, or its answer.
pub(crate) trait Awaiting: Sized + Drop {
    /// The system bytes that it is kept under.
    ghost number: { Self → ℕ };

    /// What is sent to the host.
    ghost message: { Self → Spooled };

    fn system(&self) -> u64
        ensures { result ≡ number self.now };

    /// An equal message.
    fn copy(&self, alloc: Global) -> Result<Spoolable, NoMemory>
        ensures { IfOk result (λ copy. copy ≡ message self.now) };

    fn into_message(self) -> Spoolable
        ensures { result ≡ message self };
}

/// The message under these system bytes awaits nothing more.
pub(crate) fn take_awaiting<A: Awaiting>(kept: &mut Vec<A>, system: u32) -> Option<Spoolable>
    ensures found { result ≡ option_map A.message (find (λ one. A.number one == system) kept.old.items) }
    ensures rest { kept.new.items
        ≡ remove kept.old.items (position_or_len (λ one. A.number one == system) kept.old.items) }
{
    let Some(place) = place_of(kept, system) else {
        return None;
    };
    Some(kept.remove(place).into_message())
}

/// A copy of the message under these system bytes.
pub(crate) fn copy_awaiting<A: Awaiting>(
    alloc: Global,
    kept: &Vec<A>,
    system: u32,
) -> Result<Option<Spoolable>, NoMemory>
    ensures { IfOk result
        (λ copy. copy ≡ option_map A.message (find (λ one. A.number one == system) kept.now.items)) }
{
    let system = u64::from(system);
    match kept.iter().find(|one| one.system() == system) {
        Some(one) => Ok(Some(one.copy(alloc)?)),
        None => Ok(None),
    }
}

// The place of the message under these system bytes.
fn place_of<A: Awaiting>(kept: &Vec<A>, system: u32) -> Option<usize>
    ensures place { result ≡ position (λ one. A.number one == system) kept.now.items }
    ensures within { IfSome result (λ at. at < length kept.now.items) }
{
    let system = u64::from(system);
    kept.iter().position(|one| one.system() == system)
}
