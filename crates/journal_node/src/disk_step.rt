//! A step over the disk of the journal. It is asked at two places alone: for more system bytes before all else, and to
//! list what the host has delivered before any character is sent.

ghost use Rattle.std.specs.Prelude.{◌≡◌, ◌++◌, ◌∷◌, ◌-◌, [], IfOk, Some, length, nat_le, take, true};
ghost use Rattle.spool_rule.specs.Rule.{is_spoolable};
ghost use Rattle.spool_law.specs.Journal.{entry_of as entry_of_record};
ghost use Rattle.spool_law.specs.Listing.{record_of};
ghost use Rattle.trace_log.specs.Log.Happening.{Listed, Listing as ListingNote};
ghost use Rattle.trace_log.specs.Text.{note_of};
ghost use Rattle.host_journal.specs.declared.listing.Fit.TheVariants.{Fits};
ghost use Rattle.journal_node.specs.Amid.{HasFew, ListsOf, ListsOne, Opens, fit_on};
ghost use Rattle.journal_node.specs.Held.{IsReady};
ghost use Rattle.journal_node.specs.Journal.{listed_of};

use crate::journal_host::JournalEnded;
use crate::notes::{listed_note, listing_note};
use disk_base::Disk;
use gem_spool::GemSpool;
use gl_base::{NoMemory, Row};
use host_journal::{Fit, Listing, entry_of, fit_of, list_entry};
use host_node::Host;
use message_flow::{Message, StepOut};
use std::alloc::Global;

// Fewer system bytes than a step may need.
const FEW: u64 = 128;

/// More system bytes are reserved where few are left.
pub(crate) fn reserve<D: Disk>(
    alloc: Global,
    host: &mut Host,
    journal: GemSpool<D>,
) -> Result<GemSpool<D>, JournalEnded<D>>
    requires ready { IsReady journal.spool host.old }
    ensures opens { Opens D.Disk host.old journal host.new result }
    ensures ready { IfOk result (λ g. IsReady g.spool host.new) }
{
    if has_enough(host) {
        return Ok(journal);
    }
    reserve_more(alloc, host, journal)
}

// Whether as many are left as a step may need.
fn has_enough(host: &Host) -> bool
    ensures { result ≡ nat_le 128 (host.now.core.numbers.end - host.now.core.numbers.next) }
{
    host.left() >= FEW
}

// More system bytes are reserved.
fn reserve_more<D: Disk>(
    alloc: Global,
    host: &mut Host,
    journal: GemSpool<D>,
) -> Result<GemSpool<D>, JournalEnded<D>>
    requires ready { IsReady journal.spool host.old }
    requires few { HasFew host.old }
    ensures opens { Opens D.Disk host.old journal host.new result }
    ensures ready { IfOk result (λ g. IsReady g.spool host.new) }
{
    match journal.reserve() {
        Ok((journal, base)) => match base {
            Some(base) => {
                host.refill(alloc, base);
                Ok(journal)
            }
            None => Err(JournalEnded::NumbersSpent(journal.retire())),
        },
        Err(spent) => Err(JournalEnded::DiskFailed(spent)),
    }
}

/// Lists what the host has delivered in its step, where that is to be listed.
pub(crate) fn list<D: Disk>(
    alloc: Global,
    host: &Host,
    journal: GemSpool<D>,
    out: &mut StepOut,
) -> Result<GemSpool<D>, JournalEnded<D>>
    requires version { journal.spool.version ≡ 2 }
    ensures lists { ListsOf D.Disk (listed_of host.now.own.delivered) journal out.old out.new result }
    ensures line { out.new.line ≡ out.old.line }
    ensures version { IfOk result (λ g. g.spool.version ≡ 2) }
    ensures mark { IfOk result (λ g. g.spool.mark ≡ journal.spool.mark) }
{
    match host.delivered() {
        Some(message) => list_message(alloc, message, journal, out),
        None => Ok(journal),
    }
}

// Whether a message of this stream and function is to be listed: what a tool can spool is.
fn is_listed(stream: u8, function: u8) -> bool
    ensures { result ≡ is_spoolable stream function }
{
    match stream {
        5 => function == 1,
        6 => function == 11,
        10 => function == 1,
        _ => false,
    }
}

// Lists a message that was delivered, where it is to be listed.
fn list_message<D: Disk>(
    alloc: Global,
    message: &Message,
    journal: GemSpool<D>,
    out: &mut StepOut,
) -> Result<GemSpool<D>, JournalEnded<D>>
    requires version { journal.spool.version ≡ 2 }
    ensures lists { ListsOf D.Disk (listed_of (Some message.now)) journal out.old out.new result }
    ensures line { out.new.line ≡ out.old.line }
    ensures version { IfOk result (λ g. g.spool.version ≡ 2) }
    ensures mark { IfOk result (λ g. g.spool.mark ≡ journal.spool.mark) }
{
    if is_listed(message.stream, message.function) {
        return list_one(alloc, message, journal, out);
    }
    Ok(journal)
}

// Lists a message that is to be listed. Where its record has no room, or no number, nothing is noted of it.
fn list_one<D: Disk>(
    alloc: Global,
    message: &Message,
    journal: GemSpool<D>,
    out: &mut StepOut,
) -> Result<GemSpool<D>, JournalEnded<D>>
    requires version { journal.spool.version ≡ 2 }
    requires listed { is_spoolable message.now.stream message.now.function ≡ true }
    ensures lists { ListsOne D.Disk (record_of message.now) journal out.old out.new result }
    ensures line { out.new.line ≡ out.old.line }
    ensures version { IfOk result (λ g. g.spool.version ≡ 2) }
    ensures mark { IfOk result (λ g. g.spool.mark ≡ journal.spool.mark) }
{
    let Ok(entry) = entry_of(alloc, message.system, message.body.as_slice()) else {
        return Err(JournalEnded::NoMemory(journal.retire()));
    };
    match fit_of(journal.count(), entry.len()) {
        Fit::Full => Err(JournalEnded::JournalFull(journal.retire())),
        Fit::NumbersSpent => Err(JournalEnded::NumbersSpent(journal.retire())),
        Fit::Fits => list_fitting(alloc, message, journal, entry, out),
    }
}

// Lists a message whose record fits. Its second line is noted before the put, so that no memory is wanting behind that;
// where the disk fails it is taken back.
fn list_fitting<D: Disk>(
    alloc: Global,
    message: &Message,
    journal: GemSpool<D>,
    entry: Row<u8>,
    out: &mut StepOut,
) -> Result<GemSpool<D>, JournalEnded<D>>
    requires version { journal.spool.version ≡ 2 }
    requires listed { is_spoolable message.now.stream message.now.function ≡ true }
    requires entry { entry ≡ (entry_of_record (record_of message.now)).body }
    requires fits { fit_on journal (record_of message.now) ≡ Fits }
    ensures lists { ListsOne D.Disk (record_of message.now) journal out.old out.new result }
    ensures line { out.new.line ≡ out.old.line }
    ensures version { IfOk result (λ g. g.spool.version ≡ 2) }
    ensures mark { IfOk result (λ g. g.spool.mark ≡ journal.spool.mark) }
{
    let number = journal.next();
    let Ok(()) = note_both(alloc, number, message, out) else {
        return Err(JournalEnded::NoMemory(journal.retire()));
    };
    match list_entry(journal, message.stream, message.function, entry) {
        Ok(journal) => Ok(journal),
        Err(Listing::Full(journal)) => Err(JournalEnded::JournalFull(journal.retire())),
        Err(Listing::NumbersSpent(journal)) => Err(JournalEnded::NumbersSpent(journal.retire())),
        Err(Listing::Failed(spent)) => {
            take_back(out);
            Err(JournalEnded::DiskFailed(spent))
        }
    }
}

// Notes both lines of a record.
fn note_both(
    alloc: Global,
    number: u64,
    message: &Message,
    out: &mut StepOut,
) -> Result<(), NoMemory>
    ensures notes { IfOk result (λ _. out.new.notes ≡ out.old.notes
        ++ note_of (ListingNote number (record_of message.now)) ∷ note_of (Listed number (record_of message.now))
        ∷ []) }
    ensures line { out.new.line ≡ out.old.line }
{
    out.notes.push(listing_note(alloc, number, message.stream, message.function)?)?;
    out.notes.push(listed_note(alloc, number)?)?;
    Ok(())
}

// Takes the last note back.
fn take_back(out: &mut StepOut)
    ensures notes { out.new.notes ≡ take (length out.old.notes - 1) out.old.notes }
    ensures line { out.new.line ≡ out.old.line }
{
    let len = out.notes.len();
    out.notes.truncate(len.saturating_sub(1));
}
