//! What `gemline_tool --help` says.

/// How the program is used, in plain words.
pub(crate) const HELP: &[u8] = b"gemline_tool PLAN ADDRESS SPOOL

Is a tool at its end of a SECS-I line over TCP. It listens at ADDRESS, such as 192.168.0.7:5000, as long as it runs, so
hosts may come and go. PLAN is the file that says what the tool is. SPOOL is the file that keeps what a host that is
away is to be sent; `gemline format SPOOL SLOTS` makes it.

Commands come from standard input, one a line, and each is done as its line ends:

  set VID ITEM        a variable gets a value:     set 1 <U4 6>
  event CEID          an event happens:            event 1
  alarm ALID STATE    an alarm is set, or cleared: alarm 7 set     alarm 7 clear
  terminal TID ITEM   an operator's text:          terminal 0 <A \"help\">
  online   offline   local   remote                the operator's switches
  enable   disable                                 whether the tool communicates
  stop                                             the program ends

Empty lines and lines that begin with # are passed over. Standard output has a line for each thing that the tool does.
Behind those of a command stands `ok N`, where N is the number of its line; `bad N at P` is said of a line that is no
command and breaks at its byte P. `# host ADDRESS` and `# no host` say who is at the line.

The program ends with 0 at `stop` and at the end of its input; else with 64 for its words, 65 or 66 for PLAN, 68 for its
input, 69 for ADDRESS or the line, 71 for want of memory, 73 for its output, and 74, 77 or 78 for SPOOL.
";
