//! What holds of every caller in local mode, and of every word that is typed. Nothing here runs: each law is a function that
//! takes nothing, and whose contract is the statement.

ghost use Rattle.lat_local.specs.Laws.{ActsHaveReasons, BytesGoRight, EndsAreSaidOnce, OutIsSilent, PromptIsLast, VerbsAreCut};

/// Whatever comes, a caller who isn't out is at the prompt exactly when the prompt was said last.
pub fn prompt_is_last()
    ensures { PromptIsLast }
{}

/// Each session that was said to be live is said once to have ended, unless the caller is out before.
pub fn ends_are_said_once()
    ensures { EndsAreSaidOnce }
{}

/// To a caller who is out nothing more is said.
pub fn out_is_silent()
    ensures { OutIsSilent }
{}

/// A session is asked for where there is none, and closed where there is one; a caller is hung up once.
pub fn acts_have_reasons()
    ensures { ActsHaveReasons }
{}

/// Outside a session no byte goes into one; in a session each does, up to control-], which leaves it.
pub fn bytes_go_right()
    ensures { BytesGoRight }
{}

/// A word is read as a command exactly where that one begins with it, and then no other one does.
pub fn verbs_are_cut()
    ensures { VerbsAreCut }
{}
