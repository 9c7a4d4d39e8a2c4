//! The call that shows a capture: piece by piece, with its lines written through a page.

ghost use Rattle.std.specs.Prelude.{◌≡◌, ◌⊎◌, ◌++◌, ◌∷◌, [], Err, List, OnOk};
ghost use Rattle.block_codec.specs.Block.{BlockView};
ghost use Rattle.gl_base.specs.Sending.{WroteShort, WroteText};
ghost use Rattle.gl_base.specs.Told.{sink_told};
ghost use Rattle.line_show.specs.Lines.{block_lines, character_text, flow_rest, piece_lines};
ghost use Rattle.line_show.specs.Messages.{HaveMet, with_piece};
ghost use Rattle.line_show.specs.Capture.{piece_of};
ghost use Rattle.line_show.specs.Capture.Piece.{Framed};
ghost use Rattle.line_show.specs.Show.{HasStopCause, PutsLines, Shows};

use crate::bodies::put_body;
use crate::capture::{Ending, break_at, front_frame, piece_size};
use crate::lines::{put_block_head, put_character_line};
use crate::receivers::Receivers;
use block_codec::{Block, BlockFault, block_of};
use gl_base::{NoMemory, Page, Row, Sink, SinkAnswer};
use message_flow::Flow;
use std::alloc::Global;

/// Why a capture was not shown up to its ending.
#[derive(Clone, Copy, Debug, PartialEq, Eq)]
pub enum Stop {
    NoMemory,
    /// The output failed.
    WriteFailed,
}

// How many bytes the lines of a piece have at most, but for a message's text.
const LINES: usize = 512;

/// Writes the lines of a capture's pieces up to its ending, and answers the ending. On `Stop` a part of the lines, from
/// the front, was written: where memory ran out, all lines of the pieces before.
pub fn show<W: Sink>(alloc: Global, capture: &[u8], out: &mut W) -> Result<Ending, Stop>
    ensures lines { Shows (sink_told W.Sink out.old out.new) capture.now result }
    ensures cause { HasStopCause (sink_told W.Sink out.old out.new) result }
{
    let mut page = Page::new();
    let mut text = Row::new(alloc);
    let mut receivers = Receivers::new(alloc);
    let mut at = 0;
    'pieces: loop {
        let (_, rest) = capture.split_at(at);
        if rest.is_empty() {
            return finish(&mut page, out, Ok(Ending::Whole));
        }
        let first = rest[0];
        // A block is looked at where it was made: to move it would cost more than its lines.
        let front = block_of(front_frame(rest, first));
        match break_at(capture, at, first, &front) {
            Some(found) => return finish(&mut page, out, Ok(Ending::Broken(found))),
            None => {}
        }
        match put_piece(
            alloc,
            &mut page,
            &mut text,
            &mut receivers,
            out,
            at,
            first,
            &front,
        ) {
            Ok(()) => at += piece_size(&front),
            Err(Stop::NoMemory) => return finish(&mut page, out, Err(Stop::NoMemory)),
            Err(Stop::WriteFailed) => return Err(Stop::WriteFailed),
        }
    }
}

// Sends what the page holds, and answers this, or that a write failed.
fn finish<W: Sink>(
    page: &mut Page,
    out: &mut W,
    answer: Result<Ending, Stop>,
) -> Result<Ending, Stop>
    ensures { ((result ≡ answer) × WroteText (sink_told W.Sink out.old out.new) page.old.bytes.items)
        ⊎ ((result ≡ Err Stop.WriteFailed) × WroteShort (sink_told W.Sink out.old out.new) page.old.bytes.items) }
{
    match page.send(out) {
        SinkAnswer::Done => answer,
        SinkAnswer::Failed => Err(Stop::WriteFailed),
    }
}

// Puts the lines of the piece at a place of the capture, of what was read there.
fn put_piece<W: Sink>(
    alloc: Global,
    page: &mut Page,
    text: &mut Row<u8>,
    receivers: &mut Receivers,
    out: &mut W,
    at: usize,
    first: u8,
    front: &Result<Block, BlockFault>,
) -> Result<(), Stop>
    ensures lines { (before : List BlockView) → HaveMet receivers.old before
        → PutsLines
        (sink_told W.Sink out.old out.new)
        page.old.bytes.items
        (piece_lines at before (piece_of first front.now))
        page.new.bytes.items
        result }
    ensures met { (before : List BlockView) → HaveMet receivers.old before
        → OnOk result (HaveMet receivers.new (with_piece before (piece_of first front.now))) }
{
    match front {
        Ok(block) => put_block(alloc, page, text, receivers, out, at, block),
        Err(_) => put_character(page, out, at, first),
    }
}

// Puts the line of a character.
fn put_character<W: Sink>(page: &mut Page, out: &mut W, at: usize, byte: u8) -> Result<(), Stop>
    ensures { PutsLines
        (sink_told W.Sink out.old out.new)
        page.old.bytes.items
        (character_text at byte)
        page.new.bytes.items
        result }
{
    match page.make_room(out, LINES) {
        SinkAnswer::Done => put_character_line(&mut page.bytes, at, byte),
        SinkAnswer::Failed => return Err(Stop::WriteFailed),
    }
    Ok(())
}

// Puts the lines of a block. Its message's text is made before anything is put: where memory runs out nothing is.
fn put_block<W: Sink>(
    alloc: Global,
    page: &mut Page,
    text: &mut Row<u8>,
    receivers: &mut Receivers,
    out: &mut W,
    at: usize,
    block: &Block,
) -> Result<(), Stop>
    ensures lines { (before : List BlockView) → HaveMet receivers.old before
        → PutsLines
        (sink_told W.Sink out.old out.new)
        page.old.bytes.items
        (piece_lines at before (Framed block.now))
        page.new.bytes.items
        result }
    ensures met { (before : List BlockView) → HaveMet receivers.old before
        → OnOk result (HaveMet receivers.new (before ++ block.now ∷ [])) }
{
    let Ok(flow) = receivers.accept(block) else {
        return Err(Stop::NoMemory);
    };
    let Ok(()) = make_rest(alloc, text, &flow) else {
        return Err(Stop::NoMemory);
    };
    put_lines(page, out, at, block, &flow, text.as_slice())
}

// Makes the text of a message, to the end of its line.
fn make_rest(alloc: Global, text: &mut Row<u8>, flow: &Flow) -> Result<(), NoMemory>
    ensures { OnOk result (text.new ≡ flow_rest flow.now) }
{
    text.truncate(0);
    if let Flow::Whole(message, _) = flow {
        put_body(alloc, text, message.body.as_slice())?;
        text.push(b'\n')?;
    }
    Ok(())
}

// Puts the lines of a block, with the text of its message.
fn put_lines<W: Sink>(
    page: &mut Page,
    out: &mut W,
    at: usize,
    block: &Block,
    flow: &Flow,
    rest: &[u8],
) -> Result<(), Stop>
    ensures { rest.now ≡ flow_rest flow.now
        → PutsLines
        (sink_told W.Sink out.old out.new)
        page.old.bytes.items
        (block_lines at block.now flow.now)
        page.new.bytes.items
        result }
{
    match page.make_room(out, LINES) {
        SinkAnswer::Done => put_block_head(&mut page.bytes, at, block, flow),
        SinkAnswer::Failed => return Err(Stop::WriteFailed),
    }
    match page.put(out, rest) {
        SinkAnswer::Done => Ok(()),
        SinkAnswer::Failed => Err(Stop::WriteFailed),
    }
}
