//! What stands before an item's content: the format byte and the length bytes.

ghost use Rattle.std.specs.Prelude.{◌≡◌, ◌≢◌, ℕ, ◌+◌, ◌-◌, ◌*◌, ◌%◌, ◌<◌, ◌≤◌, true, false, length, IfErr, IfOk};
ghost use Rattle.secs_items.specs.declared.item_fault.ItemFault.TheVariants as fault;
ghost use Rattle.secs_items.specs.Heads.{HeadFits, head_view};
ghost use Rattle.secs_items.specs.Kinds.{is_list, unit_of};
ghost use Rattle.secs_items.specs.Reading.{Gives, format_at, head_at, number_from, size_at};

use crate::item_fault::ItemFault;
use crate::kind::Kind;

/// A kind, a length, and the bytes after both.
#[derive(Clone, Copy)]
pub(crate) struct Head<'a> {
    pub(crate) kind: Kind,
    /// How many items a list has, how many bytes another item.
    pub(crate) size: usize,
    pub(crate) rest: &'a [u8],
}

/// The head of the item at the front, where lists may still nest so deep. `total` is the input's length.
#[tactic(auto, unfolding(crate::specs::Reading::head_at))]
pub(crate) fn head_of(bytes: &[u8], depth: usize, total: usize) -> Result<Head<'_>, ItemFault>
    requires { length bytes.now ≤ total }
    ensures gives { Gives head_view result (head_at total depth bytes.now) }
    ensures named { IfErr result (λ e. e ≢ fault.NoMemory) }
    ensures fits { IfOk result (λ head. HeadFits depth bytes.now (head_view head)) }
{
    let Some((format, bytes)) = bytes.split_first() else {
        return Err(ItemFault::Short { at: total });
    };
    let at = total - bytes.len() - 1;
    let (kind, count) = format_of(*format, depth, at)?;
    size_of(kind, count, bytes, at, total)
}

/// The kind and the number of length bytes that a format byte at a place has.
#[tactic(auto, unfolding(crate::specs::Reading::format_at))]
pub(crate) fn format_of(format: u8, depth: usize, at: usize) -> Result<(Kind, usize), ItemFault>
    ensures gives { Gives (λ x. x) result (format_at at depth format) }
    ensures named { IfErr result (λ e. e ≢ fault.NoMemory) }
    ensures some { IfOk result (λ x. 0 < x.1) }
    ensures few { IfOk result (λ x. x.1 ≤ 3) }
    ensures deep { IfOk result (λ x. is_list x.0 ≡ true → 0 < depth) }
{
    let Some(kind) = Kind::with_code(format / 4) else {
        return Err(ItemFault::BadCode { at });
    };
    let count = usize::from(format % 4);
    if count == 0 {
        return Err(ItemFault::NoLengthBytes { at });
    }
    if kind.is_list() && depth == 0 {
        return Err(ItemFault::TooDeep { at });
    }
    Ok((kind, count))
}

/// The length in the first `count` bytes, for an item of the kind at a place.
#[tactic(auto, unfolding(crate::specs::Reading::size_at))]
fn size_of(
    kind: Kind,
    count: usize,
    bytes: &[u8],
    at: usize,
    total: usize,
) -> Result<Head<'_>, ItemFault>
    requires { count ≤ 3 }
    ensures gives { Gives head_view result (size_at total at kind count bytes.now) }
    ensures named { IfErr result (λ e. e ≢ fault.NoMemory) }
    ensures kind { IfOk result (λ head. head.kind ≡ kind) }
    ensures within { IfOk result (λ head. length head.rest.now ≤ length bytes.now) }
    ensures even { IfOk result (λ head. head.size % unit_of kind ≡ 0) }
    ensures whole { IfOk result (λ head. is_list kind ≡ false → head.size ≤ length head.rest.now) }
{
    if bytes.len() < count {
        return Err(ItemFault::Short { at: total });
    }
    let (lengths, rest) = bytes.split_at(count);
    let size = number_of(lengths);
    if size % kind.unit() != 0 {
        return Err(ItemFault::Uneven { at });
    }
    if !kind.is_list() && rest.len() < size {
        return Err(ItemFault::Short { at: total });
    }
    Ok(Head { kind, size, rest })
}

/// The number that up to three bytes are, high byte first.
fn number_of(bytes: &[u8]) -> usize
    requires { length bytes.now ≤ 3 }
    ensures { result ≡ number_from bytes.now }
{
    let mut number = 0;
    for byte in bytes {
        number = 256 * number + usize::from(*byte);
    }
    number
}
