//! What commands read: the input, files, plans, and scripts.

ghost use Rattle.std.specs.Prelude.{◌≡◌};
ghost use Rattle.gemline_app.specs.Files.{FileAnswers, PlanAnswers, TextAnswers, plan_refusal};
ghost use Rattle.gemline_app.specs.Inputs.{InputAnswers};
ghost use Rattle.gemline_app.specs.Linked.{InputsAnswer, ScriptAnswers, ScriptIsRead, script_refusal};
ghost use Rattle.gemline_app.specs.Words.{file_limit};
ghost use Rattle.gl_base.specs.Told.{files_told, source_told};

use crate::outcome::{FileRole, Outcome};
use gem_config::{ConfigFault, read_plans};
use gl_base::{FileAnswer, Files, Input, Row, Side, Source, read_all};
use line_schedule::{ScheduleFault, Script, read_script};
use line_world::Plans;
use std::alloc::Global;

/// How long a script may be, in bytes.
const SCRIPT_LIMIT: usize = 1024 * 1024;

/// What an end is run by over a link.
#[derive(Drop)]
pub(crate) struct Inputs {
    /// The plans of both ends.
    pub plans: Plans,
    /// What its own side tells it.
    pub script: Script,
}

/// All bytes of the input, or why there are none.
pub(crate) fn whole_input<R: Source>(
    alloc: Global,
    input: &mut R,
    limit: usize,
) -> Result<Row<u8>, Outcome>
    ensures { InputAnswers limit
        (source_told R.Source input.old input.new)
        result }
{
    match read_all(alloc, input, limit) {
        Input::Whole(bytes) => Ok(bytes),
        Input::Longer => Err(Outcome::Longer),
        Input::Failed => Err(Outcome::ReadFailed),
        Input::NoMemory => Err(Outcome::NoMemory),
    }
}

/// The bytes of a file, or why there are none.
pub(crate) fn whole_file<F: Files>(
    alloc: Global,
    which: FileRole,
    name: &str,
    files: &mut F,
) -> Result<Row<u8>, Outcome>
    ensures { FileAnswers which name.now
        (files_told F.Files files.old files.new)
        result }
{
    match files.read_file(alloc, name, file_limit(which)) {
        FileAnswer::Whole(bytes) => Ok(bytes),
        FileAnswer::Longer => Err(Outcome::FileLonger(which)),
        FileAnswer::Failed => Err(Outcome::FileFailed(which)),
        FileAnswer::NoMemory => Err(Outcome::NoMemory),
    }
}

// How long a file may be, in bytes.
fn file_limit(which: FileRole) -> usize
    ensures { result ≡ file_limit which }
{
    match which {
        FileRole::Plan => 1024 * 1024,
        FileRole::Schedule => 4 * 1024 * 1024,
    }
}

/// The plans that a file means, or why there are none.
pub fn plans_in<F: Files>(alloc: Global, name: &str, files: &mut F) -> Result<Plans, Outcome>
    ensures { PlanAnswers name.now
        (files_told F.Files files.old files.new)
        result }
{
    match whole_file(alloc, FileRole::Plan, name, files) {
        Ok(bytes) => plans_of(alloc, bytes.as_slice()),
        Err(refusal) => Err(refusal),
    }
}

// The plans that a text means, or why it is refused.
fn plans_of(alloc: Global, text: &[u8]) -> Result<Plans, Outcome>
    ensures { TextAnswers text.now result }
{
    match read_plans(alloc, text) {
        Ok(plans) => Ok(plans),
        Err(fault) => Err(plan_refusal(fault)),
    }
}

// The refusal of a plan.
fn plan_refusal(fault: ConfigFault) -> Outcome
    ensures { result ≡ plan_refusal fault }
{
    match fault {
        ConfigFault::Key { key, what } => Outcome::BadPlan { key, what },
        ConfigFault::NoMemory => Outcome::NoMemory,
    }
}

/// The plans in a file and the script of a side on the input, or why there are none. The input is read where the plans
/// are there.
pub(crate) fn plans_and_script<F: Files, R: Source>(
    alloc: Global,
    side: Side,
    plan: &str,
    files: &mut F,
    input: &mut R,
) -> Result<Inputs, Outcome>
    ensures { InputsAnswer side plan.now
        (source_told R.Source input.old input.new)
        (files_told F.Files files.old files.new)
        result }
{
    match plans_in(alloc, plan, files) {
        Ok(plans) => match script_in(alloc, side, input) {
            Ok(script) => Ok(Inputs { plans, script }),
            Err(refusal) => Err(refusal),
        },
        Err(refusal) => Err(refusal),
    }
}

// The script of a side that the input means, or why there is none.
fn script_in<R: Source>(alloc: Global, side: Side, input: &mut R) -> Result<Script, Outcome>
    ensures { ScriptIsRead side
        (source_told R.Source input.old input.new)
        result }
{
    match whole_input(alloc, input, SCRIPT_LIMIT) {
        Ok(text) => script_of(alloc, side, text.as_slice()),
        Err(refusal) => Err(refusal),
    }
}

// The script of a side that a text means, or why it is refused.
fn script_of(alloc: Global, side: Side, text: &[u8]) -> Result<Script, Outcome>
    ensures { ScriptAnswers side text.now result }
{
    match read_script(alloc, text, side) {
        Ok(script) => Ok(script),
        Err(fault) => Err(script_refusal(fault)),
    }
}

// The refusal of a script's text.
fn script_refusal(fault: ScheduleFault) -> Outcome
    ensures { result ≡ script_refusal fault }
{
    match fault {
        ScheduleFault::Line(number) => Outcome::BadScript { number },
        ScheduleFault::NoMemory => Outcome::NoMemory,
    }
}
