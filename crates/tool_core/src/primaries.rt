//! The primaries that the equipment sends.

ghost use Rattle.std.specs.Prelude.{◌≡◌, IfOk};
ghost use Rattle.block_codec.specs.Header.{Fits};
ghost use Rattle.tool_step.specs.Sampling.{trace_data, trace_inquiry};
ghost use Rattle.tool_step.specs.Sent.{error_item, error_primary, establish_request, grant_item, grant_request, online_request, primary_of, terminal_item};
ghost use Rattle.tool_step.specs.Spooling.{unload_request};

use block_codec::Header;
use gem_shapes::pair_item;
use gl_base::{NoMemory, Row};
use message_end::Unsent;
use secs_items::Item;
use std::alloc::Global;
use tool_step::Kind;

// A primary with W.
fn primary(stream: u8, function: u8, kind: Kind, body: Row<u8>) -> Unsent<Kind>
    ensures { result ≡ primary_of stream function kind body }
{
    Unsent {
        stream,
        function,
        kind: Some(kind),
        body,
    }
}

/// S1F13, the request to establish communications.
pub(crate) fn establish_request(body: Row<u8>) -> Unsent<Kind>
    ensures { result ≡ establish_request body }
{
    primary(1, 13, Kind::Establish, body)
}

/// S1F1, which asks to be on-line.
pub(crate) fn online_request(alloc: Global) -> Unsent<Kind>
    ensures { result ≡ online_request }
{
    primary(1, 1, Kind::Attempt, Row::new(alloc))
}

/// The text of S6F5, which asks for a grant to send a report of so many bytes.
pub(crate) fn grant_item(alloc: Global, dataid: u32, len: u32) -> Result<Item, NoMemory>
    ensures { IfOk result (λ item. item ≡ grant_item dataid len) }
{
    let dataid = Item::number(alloc, dataid)?;
    pair_item(alloc, dataid, Item::number(alloc, len)?)
}

/// S6F5, for a new report.
pub(crate) fn grant_request(body: Row<u8>) -> Unsent<Kind>
    ensures { result ≡ grant_request body }
{
    primary(6, 5, Kind::Grant, body)
}

/// S6F5, for a message of the spool.
pub(crate) fn unload_request(body: Row<u8>) -> Unsent<Kind>
    ensures { result ≡ unload_request body }
{
    primary(6, 5, Kind::UnloadGrant, body)
}

/// S6F1.
pub(crate) fn trace_data(body: Row<u8>) -> Unsent<Kind>
    ensures { result ≡ trace_data body }
{
    primary(6, 1, Kind::Trace, body)
}

/// S6F5, for an S6F1.
pub(crate) fn trace_inquiry(body: Row<u8>) -> Unsent<Kind>
    ensures { result ≡ trace_inquiry body }
{
    primary(6, 5, Kind::TraceGrant, body)
}

/// The text of S10F1.
pub(crate) fn terminal_item(alloc: Global, tid: u8, text: &[u8]) -> Result<Item, NoMemory>
    ensures { IfOk result (λ item. item ≡ terminal_item tid text.now) }
{
    let tid = Item::B(Row::of(alloc, &[tid])?);
    pair_item(alloc, tid, Item::text(alloc, text)?)
}

/// The text of a message of stream 9: the header of a block.
pub(crate) fn error_item(alloc: Global, header: &Header) -> Result<Item, NoMemory>
    requires { Fits header.now }
    ensures { IfOk result (λ item. item ≡ error_item header.now) }
{
    Ok(Item::B(Row::of(alloc, &header.to_bytes())?))
}

/// S9.
pub(crate) fn error_primary(function: u8, body: Row<u8>) -> Unsent<Kind>
    ensures { result ≡ error_primary function body }
{
    Unsent {
        stream: 9,
        function,
        kind: None,
        body,
    }
}
