//! What holds of a step's works, and steps that can be followed by hand.

ghost use Rattle.tool_step.specs.CallsCounted.{CallsAreCounted};
ghost use Rattle.tool_step.specs.Losses.{LossesAreCounted};
ghost use Rattle.tool_step.specs.WorkedLosses.{LosesAtCalls};
ghost use Rattle.tool_step.specs.WorkedOwnS1F13.{EndOwnS1F13};
ghost use Rattle.tool_step.specs.WorkedRecipes.{RecipesAreServed};
ghost use Rattle.tool_step.specs.WorkedSetup.{IsKeptSo, IsNotKept, IsSetUpSo};
ghost use Rattle.tool_step.specs.WorkedSpool.{FullSpools, LosesInOrder, PutsTheLast, SpoolingBegins, UnloadsInOrder};
ghost use Rattle.tool_step.specs.WorkedTraces.{TraceDataGoes, TracesAreWorked};

/// The disk's calls in a step are as many, and write as many bytes, as is counted of its works.
pub fn calls_are_counted()
    ensures { CallsAreCounted }
{}

/// Examples of a spool. Nobody answers, and spooling begins; a message comes to a full spool, which overwrites or not;
/// an unload of three messages, of which two may go at a time and the second is not confirmed at first; the
/// communication is lost as five messages are open; and one number is left as three reports are to be put.
pub fn worked_spool_runs()
    ensures begins { SpoolingBegins }
    ensures full { FullSpools }
    ensures unloads { UnloadsInOrder }
    ensures loses { LosesInOrder }
    ensures last { PutsTheLast }
{}

/// A trace of two samples of one variable, from what the host asks for to its S6F1, and requests that are refused; and
/// what becomes of an S6F1: it goes, asks for a grant, or is dropped, as a report that no rule covers.
pub fn worked_traces()
    ensures traces { TracesAreWorked }
    ensures data { TraceDataGoes }
{}

/// Power may be lost in a step once at each call that it asks of its disk, with what is noted where the disk fails at
/// the work of that call.
pub fn losses_are_counted()
    ensures { LossesAreCounted }
{}

/// An example of what a loss of power leaves: the line fails, and a report is put.
pub fn worked_losses()
    ensures { LosesAtCalls }
{}

/// Examples of the equipment's own S1F13, open before a report, behind one, and twice, as that of the host comes.
pub fn worked_own_s1f13()
    ensures { EndOwnS1F13 }
{}

/// Examples of a setup: S2F33 is kept and answered behind that, or refused, or answered at once where the file has no
/// area; several of them are kept; and a start carries out what was kept, and reports by it.
pub fn worked_setups()
    ensures kept { IsKeptSo }
    ensures refused { IsNotKept }
    ensures starts { IsSetUpSo }
{}

/// Examples of recipes. S7F1 is granted where there is space; S7F3 is stored, or refused for want of space; S7F5 finds a
/// body, or none; S7F17 deletes a name that is known, and nothing where one isn't; S7F19 finds a name, or none. What
/// wants no answer isn't asked, unless it changes the recipes; no answer goes where they fail; and S9F3 goes where none
/// are offered.
pub fn worked_recipes()
    ensures { RecipesAreServed }
{}
