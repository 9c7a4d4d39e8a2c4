//! What a message of the host asks the equipment for: something of its tables or its recipes, or what it carries out
//! itself.

use crate::entries::{Definition, Linking, RuleEntry};
use crate::part::{Params, RecipeName, Spelled, Text};
use gl_base::Row;

/// What a message of the host asks the equipment for. The tables answer most of it; what changes the states, sends or
/// purges the spool, or sets a trace, stands for itself.
#[derive(Drop)]
pub enum Request<'a> {
    /// What the tables answer.
    OfTables(TablesRequest<'a>),
    /// What the recipes answer.
    OfRecipes(RecipesRequest<'a>),
    /// S1F13.
    Establish,
    /// S1F15.
    GoOffline,
    /// S1F17.
    GoOnline,
    /// S6F23 with RSDC 0.
    TransmitSpool,
    /// S6F23 with RSDC 1.
    PurgeSpool,
    /// S2F23: so many samples of these variables, one each period, and so many of them in each S6F1.
    Trace {
        trid: u32,
        dsper: Text<'a>,
        total: u32,
        group: u32,
        svids: Row<u32>,
    },
}

/// What a message of the host asks the tables of the equipment for. Identifiers and texts stand in the order of the
/// message.
#[derive(Drop)]
pub enum TablesRequest<'a> {
    /// S1F1.
    AreYouThere,
    /// S1F3: the values of these variables, or of all where there is none.
    StatusValues(Row<u32>),
    /// S1F11: the names of these variables, or of all.
    StatusNames(Row<u32>),
    /// S2F13: the values of these constants, or of all.
    ConstantValues(Row<u32>),
    /// S2F15: constants with their new values.
    SetConstants(Row<(u32, u32)>),
    /// S2F29: the names of these constants, or of all.
    ConstantNames(Row<u32>),
    /// S2F33.
    Define { dataid: u32, list: Row<Definition> },
    /// S2F35.
    Link { dataid: u32, list: Row<Linking> },
    /// S2F37: these events, or all where there is none.
    EnableEvents { on: bool, ceids: Row<u32> },
    /// S2F39: a message of several blocks is to come.
    Announce { dataid: u32, length: u32 },
    /// S2F41.
    Command { name: Text<'a>, params: Params<'a> },
    /// S2F43.
    ReplaceRule(Row<RuleEntry>),
    /// S5F3: an alarm, or all where `alid` is `None`.
    EnableAlarms { on: bool, alid: Option<u32> },
    /// S5F5: these alarms, or all where there is none.
    Alarms(Row<u32>),
    /// S5F7.
    EnabledAlarms,
    /// S6F15: the report of this event.
    EventReport(u32),
    /// S6F19: the report of this RPTID.
    Report(u32),
    /// S10F3.
    Display { tid: u8, text: Text<'a> },
    /// S10F5.
    DisplayLines { tid: u8, texts: Row<Text<'a>> },
}

/// What a message of the host asks the recipes of the equipment for.
#[derive(Drop)]
pub enum RecipesRequest<'a> {
    /// S7F1: a recipe of this name and length is to come.
    Inquire {
        name: RecipeName<'a>,
        length: u32,
    },
    /// S7F3: a recipe, with the bytes of its body as they came.
    Send {
        name: RecipeName<'a>,
        body: Spelled<'a>,
    },
    /// S7F5: the recipe of this name.
    Ask(RecipeName<'a>),
    /// S7F17: these are deleted, or all where there is none.
    Delete(Row<RecipeName<'a>>),
    /// S7F19: the names of all.
    List,
}
