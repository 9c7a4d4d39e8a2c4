//! The setup that the equipment keeps as its host has made it: what a start carries out of it, and what is kept behind
//! a request.

ghost use Rattle.std.specs.Prelude.{◌≡◌, ◌≤◌, ◌++◌, ◌∷◌, [], length, true, false, Some, IfOk, IfSome, None};
ghost use Rattle.std.specs.Option.{option_map_or};
ghost use Rattle.block_codec.specs.Protocol.{longest_text};
ghost use Rattle.message_end.specs.Ends.{printed};
ghost use Rattle.equipment_tables.specs.Setup.{accepts, primary_of};
ghost use Rattle.equipment_tables.specs.Tables.{asked_after, state_of};
ghost use Rattle.equipment_tables.specs.Requests.{IsAsked};
ghost use Rattle.setup_store.specs.Entries.{AreBytesOf, break_of, bytes_of, entries_in, entry_of, has_room, is_kept};
ghost use Rattle.setup_store.specs.Kept.{change_in, kept};
ghost use Rattle.setup_store.specs.Laws.{AreBytes};
ghost use Rattle.tool_core.specs.Node.{own_of};
ghost use Rattle.tool_core.specs.Setup.{IsNext, refused_notes};
ghost use Rattle.tool_step.specs.Own.{untold as untold_of};
ghost use Rattle.tool_step.specs.Setup.{carried_line, carried_lines, found_list, has_space_code as space_coded, list_of, next_setup as setup_behind, set_up, tables_with, to_keep};
ghost use Rattle.message_flow.specs.declared.message.Message.{Message};
ghost use Rattle.trace_log.specs.Names.{message_name};
ghost use Rattle.trace_log.specs.Log.Happening.{Keeping, Kept, Refused, Setup};
ghost use Rattle.trace_log.specs.Text.{note_of};

use crate::noting::{keeping_note, kept_note, setup_note};
use crate::own::{Own, Tool};
use equipment_tables::{Tables, request_of};
use gem_shapes::Request;
use gl_base::{NoMemory, Row};
use message_flow::{Message, StepOut};
use secs_items::BodyCheck;
use setup_store::{
    EntryView, first_entry, has_room, is_kept, lists_are_read_as_spelled, next_kept,
};
use std::alloc::Global;
use std::marker::Model;
use tool_step::Owed;
use trace_log::{Name, refused_note};

// The least bound of a text that the tables take.
const MAX_BODY: u32 = 244;

/// A list of kept primaries, the oldest first, as the bytes that spell it.
#[derive(Debug, Drop)]
pub struct KeptSetup {
    pub(crate) bytes: Row<u8>,
}

impl Model for KeptSetup {
    ghost use Rattle.std.specs.Prelude.{◌≡◌, List, true};
    ghost use Rattle.setup_store.specs.Entries.{AreBytesOf, Entry, has_room};
    ghost use Rattle.tool_step.specs.Setup.{list_of};

    ghost Value = { List Entry };

    ghost view = { λ inside. list_of inside.bytes };

    ghost invariant = { λ inside.
        AreBytesOf (list_of inside.bytes) inside.bytes × (has_room inside.bytes ≡ true) };
}

/// What is kept behind a request.
#[derive(Debug, Drop)]
pub enum NextSetup {
    /// The request doesn't change the setup, or is refused; or the file has no room for any setup.
    Same,
    /// This list.
    Kept(KeptSetup),
    /// A list that is too long to be kept.
    Over,
}

impl KeptSetup {
    /// The list that these bytes spell, which were found on the disk.
    pub fn of(bytes: Row<u8>) -> KeptSetup
        requires list { break_of (entries_in bytes) ≡ None }
        requires room { has_room bytes ≡ true }
        ensures { result ≡ list_of bytes }
    {
        are_bytes(bytes.as_slice());
        lists_are_read_as_spelled();
        KeptSetup { bytes }
    }

    /// Its bytes.
    pub fn bytes(&self) -> &[u8]
        ensures bytes { result.now ≡ bytes_of self.now }
        ensures are { AreBytesOf self.now result.now }
        ensures room { has_room result.now ≡ true }
    {
        self.bytes.as_slice()
    }

    // The list behind one more primary, which is one of the six that are kept.
    fn next(&self, alloc: Global, message: &Message) -> Result<NextSetup, NoMemory>
        requires kept { is_kept message.now.stream message.now.function ≡ true }
        requires short { length message.now.body ≤ longest_text }
        ensures { IfOk result (IsNext (Some (kept self.now (primary_of message.now)))) }
    {
        lists_are_read_as_spelled();
        let primary = EntryView {
            stream: message.stream,
            function: message.function,
            body: message.body.as_slice(),
        };
        let next = next_kept(alloc, self.bytes(), &primary)?;
        if !has_room(next.as_slice()) {
            return Ok(NextSetup::Over);
        }
        Ok(NextSetup::Kept(KeptSetup { bytes: next }))
    }

    // How many entries it has.
    fn count(&self) -> u64
        ensures { result ≡ length self.now }
    {
        lists_are_read_as_spelled();
        let mut count: u64 = 0;
        let mut rest = self.bytes();
        'entries: while let Some((_, behind)) = first_entry(rest) {
            count += 1;
            rest = behind;
        }
        count
    }

    /// Carries it out on the tables of a start: each entry in its order, of which those that are refused are noted.
    pub(crate) fn carry_out(
        &self,
        alloc: Global,
        tables: &mut Tables,
        out: &mut StepOut,
    ) -> Result<(), NoMemory>
        ensures tables { IfOk result (λ done. state_of tables.new ≡ set_up (state_of tables.old) self.now) }
        ensures notes { IfOk result (λ done. out.new.notes
            ≡ out.old.notes ++ printed (carried_lines (state_of tables.old) self.now)) }
        ensures line { out.new.line ≡ out.old.line }
    {
        lists_are_read_as_spelled();
        let mut rest = self.bytes();
        'entries: while let Some((entry, behind)) = first_entry(rest) {
            carry_one(alloc, &entry, tables, out)?;
            rest = behind;
        }
        Ok(())
    }
}

// Carries one entry out, or notes that it is refused, which changes nothing.
fn carry_one(
    alloc: Global,
    entry: &EntryView<'_>,
    tables: &mut Tables,
    out: &mut StepOut,
) -> Result<(), NoMemory>
    requires { length entry.now.body.now ≤ 7995148 }
    ensures tables { IfOk result (λ done. state_of tables.new
        ≡ tables_with (state_of tables.old) (entry_of entry.now)) }
    ensures notes { IfOk result (λ done. out.new.notes
        ≡ out.old.notes ++ printed (carried_line (state_of tables.old) (entry_of entry.now) ∷ [])) }
    ensures line { out.new.line ≡ out.old.line }
{
    let mut check = BodyCheck::new();
    check.feed(entry.body);
    match request_of(alloc, entry.stream, entry.function, entry.body, &check)? {
        Some(request) => carry_request(alloc, &request, tables, out),
        None => note_refused(alloc, out),
    }
}

// Carries out what an entry asks for.
fn carry_request(
    alloc: Global,
    request: &Request<'_>,
    tables: &mut Tables,
    out: &mut StepOut,
) -> Result<(), NoMemory>
    requires { IsAsked request.now }
    ensures tables { IfOk result (λ done. state_of tables.new ≡ asked_after (Some request.now) (state_of tables.old)) }
    ensures notes { IfOk result (λ done. out.new.notes ≡ out.old.notes
        ++ refused_notes (option_map_or (accepts (state_of tables.old)) (change_in request.now) false)) }
    ensures line { out.new.line ≡ out.old.line }
{
    let accepted = would_accept(alloc, request, tables)?;
    change(alloc, request, tables)?;
    if accepted {
        return Ok(());
    }
    note_refused(alloc, out)
}

// Whether the tables accept a request as a change of the setup.
fn would_accept(alloc: Global, request: &Request<'_>, tables: &Tables) -> Result<bool, NoMemory>
    ensures { IfOk result (λ accepted. accepted
        ≡ option_map_or (accepts (state_of tables.now)) (change_in request.now) false) }
{
    match request {
        Request::OfTables(asked) => tables.accepts(alloc, asked),
        _ => Ok(false),
    }
}

// Changes the tables by a request. Its answer isn't needed.
pub(crate) fn change(
    alloc: Global,
    request: &Request<'_>,
    tables: &mut Tables,
) -> Result<(), NoMemory>
    requires { IsAsked request.now }
    ensures { IfOk result (λ done. state_of tables.new ≡ asked_after (Some request.now) (state_of tables.old)) }
{
    let Request::OfTables(asked) = request else {
        return Ok(());
    };
    let mut lines = Row::new(alloc);
    let _answer = tables.answer(alloc, asked, false, MAX_BODY, &mut lines)?;
    Ok(())
}

/// Notes that a primary of this name is kept.
pub(crate) fn note_keeping(alloc: Global, name: Name, out: &mut StepOut) -> Result<(), NoMemory>
    ensures notes { (message : Message) → name ≡ message_name message → IfOk result (λ done. out.new.notes
        ≡ out.old.notes ++ note_of (Keeping message) ∷ note_of (Kept message) ∷ []) }
    ensures line { out.new.line ≡ out.old.line }
{
    out.notes.push(keeping_note(alloc, name)?)?;
    out.notes.push(kept_note(alloc, name)?)
}

fn note_refused(alloc: Global, out: &mut StepOut) -> Result<(), NoMemory>
    ensures notes { IfOk result (λ done. out.new.notes ≡ out.old.notes ++ note_of Refused ∷ []) }
    ensures line { out.new.line ≡ out.old.line }
{
    out.notes.push(refused_note(alloc)?)
}

/// Notes what a start finds kept; an empty list has no line, and a file without room for one neither.
pub(crate) fn note_setup(
    alloc: Global,
    setup: &Option<KeptSetup>,
    out: &mut StepOut,
) -> Result<(), NoMemory>
    ensures notes { IfOk result (λ done. out.new.notes ≡ out.old.notes ++ printed (Setup setup.now ∷ [])) }
    ensures line { out.new.line ≡ out.old.line }
{
    let count = count_of(setup);
    if count == 0 {
        return Ok(());
    }
    out.notes.push(setup_note(alloc, count)?)
}

// How many primaries are kept.
fn count_of(setup: &Option<KeptSetup>) -> u64
    ensures { result ≡ length (found_list setup.now) }
{
    match setup {
        Some(list) => list.count(),
        None => 0,
    }
}

impl Tool {
    /// The bytes that this step keeps as the setup, if it does.
    pub fn to_keep(&self) -> Option<&[u8]>
        ensures some { IfSome result (λ bytes. to_keep (own_of self.now.own) ≡ Some bytes.now) }
        ensures none { result ≡ None → to_keep (own_of self.now.own) ≡ None }
        ensures room { IfSome result (λ bytes. has_room bytes.now ≡ true) }
    {
        match (&self.own.owed, &self.own.setup) {
            (Some(Owed::Keep(_)), Some(list)) => Some(list.bytes()),
            _ => None,
        }
    }
}

impl Own {
    /// What is kept behind a request that this message asks, before anything is changed.
    pub(crate) fn next_setup(
        &self,
        alloc: Global,
        request: &Request<'_>,
        message: &Message,
    ) -> Result<NextSetup, NoMemory>
        requires { length message.now.body ≤ longest_text }
        ensures { IfOk result (IsNext (setup_behind request.now message.now (own_of self.now))) }
    {
        let Request::OfTables(asked) = request else {
            return Ok(NextSetup::Same);
        };
        if !is_kept(message.stream, message.function) || !self.tables.accepts(alloc, asked)? {
            return Ok(NextSetup::Same);
        }
        match &self.setup {
            Some(list) => list.next(alloc, message),
            None => Ok(NextSetup::Same),
        }
    }
}

/// Whether a primary has a code for want of space.
pub(crate) fn has_space_code(message: &Message) -> bool
    ensures { result ≡ space_coded message.now }
{
    matches!((message.stream, message.function), (2, 33 | 35))
}

/// A primary without its text.
pub(crate) fn untold(alloc: Global, message: &Message) -> Message
    ensures { result ≡ untold_of message.now }
{
    Message {
        stream: message.stream,
        function: message.function,
        wait: message.wait,
        system: message.system,
        body: Row::new(alloc),
    }
}

// Tells that they are bytes.
fn are_bytes(bytes: &[u8])
    ensures { AreBytes bytes.now }
{
    let _ = bytes;
}
