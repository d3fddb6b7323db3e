//! The text of the help.
use std::alloc::{AllocError, Global};
use vpg_script::all_forms;

/// The program's purpose, in a few lines.
pub(crate) const ABOUT: &str = "\
Configures a product family whose behaviour is a variability parity game.

The family is a parity game whose edges carry guards over features, and a
feature diagram that says which sets of features are products. A script selects
and excludes features, takes decisions back, and settles two tables of progress
measures. They show for each vertex whether it is hopeless (Even wins it in no
product that is left) and whether it is sure (Odd wins it in none). What cannot
be shown is called possible, or unsure.

In place of a game there may be a transition system with guards, and a file of
requirements, formulas of the mu-calculus. Each requirement is a vertex of their
game: it is sure where it holds in every product that is left, and hopeless
where it holds in none.";

/// The help on scripts that stands before the commands.
const BEFORE: &str = "\
Without a command a script is read from standard input and carried out on a
small family that is built in: the features r (the root), f and g, and the
vertices 0 and 1.

Scripts, ";

/// The first lines of the list of commands.
const LIST_BEGIN: &str = "\
one command a line (F a feature, S a change's number, V a vertex: its
identifier, the name of its requirement, or its name in quotes, K a harvest's
number, N a number):";

/// The lines of the list after those of the commands.
const LIST_END: &str = "
  # ..                   a comment
  N: COMMAND             session N (1 to 64) gives the command";

/// The help that stands after the commands: statuses, examples.
const BEHIND: &str = "

Status: 0; 1 where the input is refused or something fails (an answer
`refused ..` to a line leaves 0), told by one line on standard error, and with
--explain by further lines behind it; 2 where the words are wrong; 3 where an
assertion failed, or under --strict a line was refused.

Examples:
  printf 'exclude f\\nsettle\\nshow\\n' | vpgdesk
  cd examples/elevator
  vpgdesk lint game diagram
  vpgdesk run game diagram script
  vpgdesk desk game diagram
  vpgdesk project game diagram lift sensor overload
  vpgdesk diagram model.uvl > diagram
  vpgdesk draw game diagram | dot -Tsvg > game.svg
  vpgdesk draw --system system diagram | dot -Tsvg > system.svg
  vpgdesk check --system system --requirements requirements diagram

All formats, commands, answers and faults: docs/FORMATS.md";

/// Appends the list of commands of scripts.
fn put_commands(list: &mut String) -> Result<(), AllocError> {
    list.push_str(LIST_BEGIN)?;
    for form in all_forms() {
        list.push_str(form.help)?;
    }
    list.push_str(LIST_END)
}

/// Returns the help on the commands of scripts: a list of them.
pub fn command_list(alloc: Global) -> Result<String, AllocError> {
    let mut list = String::new(alloc);
    put_commands(&mut list)?;
    Ok(list)
}

/// Returns the end of the long help, more than the words say: scripts, statuses, examples.
pub fn help_end(alloc: Global) -> Result<String, AllocError> {
    let mut text = String::new(alloc);
    text.push_str(BEFORE)?;
    put_commands(&mut text)?;
    text.push_str(BEHIND)?;
    Ok(text)
}

/// The end of the short help, a line for each subject.
pub(crate) const SHORT_AFTER: &str = "\
Without a command a script is read from standard input, on a small family that
is built in. `vpgdesk --help` tells of scripts, statuses and examples.";
