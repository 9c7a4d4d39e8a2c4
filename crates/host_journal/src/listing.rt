//! Whether a record can be listed, and its put.

ghost use Rattle.std.specs.Prelude.{◌≡◌, ◌<◌, ◌%◌, Some, length};
ghost use Rattle.gem_spool.specs.Standing.{count_of};
ghost use Rattle.host_journal.specs.Fitting.{fit_by, fit_in};
ghost use Rattle.host_journal.specs.declared.listing.Fit.TheVariants.{Fits};
ghost use Rattle.host_journal.specs.Listing.{Lists};

use disk_base::Disk;
use gem_spool::{Count, GemSpool, Undone, Work};
use gl_base::Row;
use spool_file::NUMBERS;
use spool_slots::{Spent, message_size};

/// Whether a record can be listed.
#[derive(Clone, Copy, Debug, PartialEq, Eq)]
pub enum Fit {
    Fits,
    /// The record has more bytes than a message of such a file may have, or takes more slots than are free.
    Full,
    /// It isn't so, and the numbers that the record takes would pass 2^63.
    NumbersSpent,
}

/// Why a record wasn't listed.
#[derive(Debug, Drop)]
pub enum Listing<D: Disk> {
    /// The record has more bytes than a message of such a file may have, or takes more slots than are free. The journal
    /// is as it was.
    Full(GemSpool<D>),
    /// The numbers that the record takes would pass 2^63. The journal is as it was.
    NumbersSpent(GemSpool<D>),
    /// A call of the disk failed. All that was listed stands, and this record behind it or not.
    Failed(Spent<D>),
}

/// Whether a record of so many bytes can be listed in a journal that these numbers tell of. It asks nothing of the
/// disk.
pub fn fit_of(count: Count, length: usize) -> Fit
    ensures { result ≡ fit_in count length }
{
    match message_size(count.version, count.slots, length) {
        None => Fit::Full,
        Some(size) => fit_size(count, size),
    }
}

// Whether one of so many slots can be.
fn fit_size(count: Count, size: u32) -> Fit
    ensures { result ≡ fit_by count (Some size) }
{
    if u64::from(count.used) + u64::from(size) > u64::from(count.slots) {
        return Fit::Full;
    }
    if count.next > NUMBERS - u64::from(size) {
        return Fit::NumbersSpent;
    }
    Fit::Fits
}

/// Lists a record, which is what `entry_of` gives of a message of this stream and function: it is put at the end of
/// the journal, with the next number. A crash finds all that was listed before, and the record behind it or not; behind
/// `Ok` it finds the record. Where it can't be listed nothing is asked of the disk.
pub fn list_entry<D: Disk>(
    journal: GemSpool<D>,
    stream: u8,
    function: u8,
    entry: Row<u8>,
) -> Result<GemSpool<D>, Listing<D>>
    requires function { function % 2 ≡ 1 }
    requires stream { stream < 128 }
    ensures { Lists D.Disk journal stream function entry result }
{
    match fit_of(journal.count(), entry.len()) {
        Fit::Full => Err(Listing::Full(journal)),
        Fit::NumbersSpent => Err(Listing::NumbersSpent(journal)),
        Fit::Fits => put_entry(journal, stream, function, entry),
    }
}

// Puts a record that fits.
fn put_entry<D: Disk>(
    journal: GemSpool<D>,
    stream: u8,
    function: u8,
    entry: Row<u8>,
) -> Result<GemSpool<D>, Listing<D>>
    requires function { function % 2 ≡ 1 }
    requires stream { stream < 128 }
    requires fits { fit_in (count_of journal.spool) (length entry) ≡ Fits }
    ensures { Lists D.Disk journal stream function entry result }
{
    let works = [Work::Put {
        stream,
        function,
        body: entry,
    }];
    match journal.carry_out(&works) {
        Ok(journal) => Ok(journal),
        Err(Undone { at: _, spent }) => Err(Listing::Failed(spent)),
    }
}
