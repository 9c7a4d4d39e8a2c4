//! What holds of all runs over a link.

ghost use Rattle.link_courses.specs.Courses.{RunsAreCourses};
ghost use Rattle.link_courses.specs.Equipment.{EquipmentsKeepTheirLaws};
ghost use Rattle.link_courses.specs.Host.{HostsKeepTheirLaws};
ghost use Rattle.link_courses.specs.Noting.{RunsNoteCourses};
ghost use Rattle.link_courses.specs.Tool.{ToolsKeepTheirLaws};
ghost use Rattle.link_courses.specs.Worked.{TellsItsCourse};

use end_run::LinkedEnd;
use tool_law::equipment_keeps_the_law;
use tool_reports::reports_are_of_their_events;
use tool_spool::{messages_leave_in_step, overwrites_for_puts, setup_is_kept, spool_is_kept};

/// All that an end notes in a run over a link, whatever commands it, is what a course of it brings, of the steps that
/// the run makes and of nothing else; where the peer closes the connection, that is noted behind them.
pub fn runs_are_courses<E: LinkedEnd, Q>()
    ensures { RunsAreCourses E.State E.Command Q }
{}

/// The output has received the lines of that, all of them, or where memory, output, link or disk has ended the run, of
/// what comes first of it.
pub fn runs_note_courses<E: LinkedEnd, Q>()
    ensures { RunsNoteCourses E.State E.Command Q }
{}

/// Examples of runs: one that is a course of its end, and others that are none, with a note of no step, with notes that
/// come twice or are missing, and with a closing amid them.
pub fn worked_courses()
    ensures { TellsItsCourse }
{}

/// Each run of `equipment` over a disk that tells its bytes, whatever the link and the output do, has noted what a
/// course of the equipment brings over what the file held, and what is proved of the reports, of the spool and of the
/// setup of all courses holds of it, as of a replay. Where the link gives bytes it is of doings that keep the law of an
/// end.
pub fn equipments_keep_their_laws()
    ensures { EquipmentsKeepTheirLaws }
{
    equipment_keeps_the_law();
    reports_are_of_their_events();
    spool_is_kept();
    messages_leave_in_step();
    overwrites_for_puts();
    setup_is_kept();
}

/// Each run of `tool` over a disk that tells its bytes, whatever link and output do and whatever comes beside the link,
/// keeps the same laws. Where the link gives bytes and the tool is told commands that it takes, as those of an input
/// that is told are, it is of doings that keep the law of an end.
pub fn tools_keep_their_laws()
    ensures { ToolsKeepTheirLaws }
{
    equipment_keeps_the_law();
    reports_are_of_their_events();
    spool_is_kept();
    messages_leave_in_step();
    overwrites_for_puts();
    setup_is_kept();
}

/// Each run of `host` has noted what a course of the host brings; where the link gives bytes, that is of doings that
/// keep the law of an end.
pub fn hosts_keep_their_laws()
    ensures { HostsKeepTheirLaws }
{}
