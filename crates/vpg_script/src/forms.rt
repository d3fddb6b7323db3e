//! The commands of scripts: their words, their arguments, and their help.
//!
//! Each command has one row of `FORMS`, a `CommandForm`. Lines are read by its word, its parameters, its verb, and what
//! it looks at (`specs/Forms` repeats these). Messages about faulty lines use it too, and help prints its lines.
ghost use Rattle.std.specs.Prelude.{◌≡◌, map, option_map};
ghost use Rattle.std.specs.List.{find};
ghost use Rattle.vpg_script.specs.Forms.{form_named, form_shown, forms, is_named};

use crate::look::{FeatureLook, PageLook, VertexLook};
use vpg_sides::Which;

/// The commands that do more than look at the page, a vertex or a feature.
#[derive(Clone, Copy)]
pub enum Verb {
    Select,
    Exclude,
    Retract,
    Reset,
    Undo,
    Redo,
    Keep,
    Forget,
    Lift,
    Harvest,
    Commit,
    Settle,
    Changed,
    /// It also looks at several vertices.
    Show,
    Assert,
}

/// The kind of an argument of a command.
#[derive(Clone, Copy, PartialEq, Eq)]
pub enum Parameter {
    /// The name of a feature.
    Feature,
    /// The serial of a change.
    Serial,
    /// The number of a kept harvest.
    Harvest,
    /// A number of sweeps.
    Sweeps,
    /// `hopeful` or `dual`.
    Table,
    Vertex,
    /// The subject of a `why`: a vertex or a feature, or a feature with the sign of a decision.
    Subject,
    /// The vertex of an assertion, or the whole assertion.
    Asserted,
    /// A verdict of a vertex that is asserted.
    Verdict,
}

/// The form of a command: a row of the table.
#[derive(Clone, Copy)]
pub struct CommandForm {
    pub word: &'static str,
    /// How messages write it.
    pub written: &'static str,
    pub parameters: &'static [Parameter],
    /// The least number of arguments.
    pub least: usize,
    /// The parameter of each further argument, if there may be any.
    pub rest: Option<Parameter>,
    /// Its verb, if it does more than the looks of its row.
    pub verb: Option<Verb>,
    /// The look at the page, if it stands alone.
    pub of_page: Option<PageLook>,
    /// The look at the vertex that is its argument.
    pub of_vertex: Option<VertexLook>,
    /// The look at the feature whose name is its argument.
    pub of_feature: Option<FeatureLook>,
    /// Its lines of help, each after a line feed, of at most 80 columns. They may be about other commands too, whose
    /// rows then have none.
    pub help: &'static str,
}

/// The form of a command without arguments, which is no look: rows say in what they differ from it.
const PLAIN: CommandForm = CommandForm {
    word: "",
    written: "",
    parameters: &[],
    least: 0,
    rest: None,
    verb: None,
    of_page: None,
    of_vertex: None,
    of_feature: None,
    help: "",
};

/// The commands, in the order of their help.
const FORMS: &[CommandForm] = &[
    CommandForm {
        word: "select",
        written: "select F",
        parameters: &[Parameter::Feature],
        least: 1,
        verb: Some(Verb::Select),
        ..PLAIN
    },
    CommandForm {
        word: "exclude",
        written: "exclude F",
        parameters: &[Parameter::Feature],
        least: 1,
        verb: Some(Verb::Exclude),
        help: "
  select F, exclude F    decide that F is in or out",
        ..PLAIN
    },
    CommandForm {
        word: "retract",
        written: "retract F",
        parameters: &[Parameter::Feature],
        least: 1,
        verb: Some(Verb::Retract),
        ..PLAIN
    },
    CommandForm {
        word: "reset",
        written: "reset",
        verb: Some(Verb::Reset),
        help: "
  retract F, reset       take that decision back; take all of them back",
        ..PLAIN
    },
    CommandForm {
        word: "undo",
        written: "undo [S]",
        parameters: &[Parameter::Serial],
        verb: Some(Verb::Undo),
        ..PLAIN
    },
    CommandForm {
        word: "redo",
        written: "redo [S]",
        parameters: &[Parameter::Serial],
        verb: Some(Verb::Redo),
        help: "
  undo [S], redo [S]     the latest change, or the change S",
        ..PLAIN
    },
    CommandForm {
        word: "keep",
        written: "keep S",
        parameters: &[Parameter::Serial],
        least: 1,
        verb: Some(Verb::Keep),
        help: "
  keep S                 give up the right to undo S and all before it",
        ..PLAIN
    },
    CommandForm {
        word: "forget",
        written: "forget S",
        parameters: &[Parameter::Serial],
        least: 1,
        verb: Some(Verb::Forget),
        help: "
  forget S               give up the right to redo S and all behind it",
        ..PLAIN
    },
    CommandForm {
        word: "lift",
        written: "lift TABLE V",
        parameters: &[Parameter::Table, Parameter::Vertex],
        least: 2,
        verb: Some(Verb::Lift),
        // Help names `settle` first: most scripts have no `lift`.
        help: "
  settle [N]             raise both tables until they are settled, or in at most
                         N sweeps
  lift hopeful V         raise one vertex of one table;
  lift dual V            the same of the other",
        ..PLAIN
    },
    CommandForm {
        word: "harvest",
        written: "harvest",
        verb: Some(Verb::Harvest),
        ..PLAIN
    },
    CommandForm {
        word: "commit",
        written: "commit K",
        parameters: &[Parameter::Harvest],
        least: 1,
        verb: Some(Verb::Commit),
        help: "
  harvest, commit K      settle copies of the tables; take them into the page",
        ..PLAIN
    },
    CommandForm {
        word: "settle",
        written: "settle [N]",
        parameters: &[Parameter::Sweeps],
        verb: Some(Verb::Settle),
        ..PLAIN
    },
    CommandForm {
        word: "show",
        written: "show [V ..]",
        rest: Some(Parameter::Vertex),
        verb: Some(Verb::Show),
        of_page: Some(PageLook::Show),
        ..PLAIN
    },
    CommandForm {
        word: "trail",
        written: "trail",
        of_page: Some(PageLook::Trail),
        help: "
  show, trail            verdicts; the page's entries
  show V ..              the verdicts of these vertices",
        ..PLAIN
    },
    CommandForm {
        word: "products",
        written: "products",
        of_page: Some(PageLook::Products),
        ..PLAIN
    },
    CommandForm {
        word: "plan",
        written: "plan [V]",
        parameters: &[Parameter::Vertex],
        of_page: Some(PageLook::Plan),
        of_vertex: Some(VertexLook::Moves(Which::Hopeful)),
        help: "
  products, plan         known features; Even's moves, where all is known",
        ..PLAIN
    },
    CommandForm {
        word: "count",
        written: "count",
        of_page: Some(PageLook::Count),
        help: "
  count                  how many vertices have which verdict; whether the page
                         is settled, full or empty",
        ..PLAIN
    },
    CommandForm {
        word: "draw",
        written: "draw [V]",
        parameters: &[Parameter::Vertex],
        of_page: Some(PageLook::Draw),
        of_vertex: Some(VertexLook::Draw),
        help: "
  draw                   a picture of the game, for Graphviz;
  draw V                 the same of what can be reached from V, by moves that
                         win in every product left, where V is hopeless or sure",
        ..PLAIN
    },
    CommandForm {
        word: "changed",
        written: "changed",
        verb: Some(Verb::Changed),
        help: "
  changed                verdicts that are other than at the last `changed`",
        ..PLAIN
    },
    CommandForm {
        word: "known",
        written: "known F",
        parameters: &[Parameter::Feature],
        least: 1,
        of_feature: Some(FeatureLook::Known),
        help: "
  known F                whether F is known to be in or out",
        ..PLAIN
    },
    CommandForm {
        word: "assert",
        written: "assert V WORD .. | full | settled",
        parameters: &[Parameter::Asserted],
        least: 1,
        rest: Some(Parameter::Verdict),
        verb: Some(Verb::Assert),
        help: "
  assert V WORD ..       whether V is hopeless, possible, sure or unsure, and
                         stays so
  assert V won           whether a product is left, and Even wins at V in each;
                         lost: Odd in each; mixed: each of them in some
  assert full            whether each feature is known;
  assert settled         whether the page is settled",
        ..PLAIN
    },
    CommandForm {
        word: "why",
        written: "why V | F | +F | -F",
        parameters: &[Parameter::Subject],
        least: 1,
        of_vertex: Some(VertexLook::Why),
        of_feature: Some(FeatureLook::Why),
        help: "
  why V, why F           decisions that make V's verdicts so, or F known
  why +F, why -F         decisions that contradict one more",
        ..PLAIN
    },
    CommandForm {
        word: "example",
        written: "example V",
        parameters: &[Parameter::Vertex],
        least: 1,
        of_vertex: Some(VertexLook::Example(Which::Hopeful)),
        help: "
  example V              the first product left in which Even wins at V",
        ..PLAIN
    },
    CommandForm {
        word: "counterexample",
        written: "counterexample V",
        parameters: &[Parameter::Vertex],
        least: 1,
        of_vertex: Some(VertexLook::Example(Which::Dual)),
        help: "
  counterexample V       the same of Odd",
        ..PLAIN
    },
    CommandForm {
        word: "lost",
        written: "lost V",
        parameters: &[Parameter::Vertex],
        least: 1,
        of_vertex: Some(VertexLook::Lost(Which::Hopeful)),
        help: "
  lost V                 decisions because of which Even wins at V in no product",
        ..PLAIN
    },
    CommandForm {
        word: "won",
        written: "won V",
        parameters: &[Parameter::Vertex],
        least: 1,
        of_vertex: Some(VertexLook::Lost(Which::Dual)),
        help: "
  won V                  the same of Odd",
        ..PLAIN
    },
    CommandForm {
        word: "offer",
        written: "offer V",
        parameters: &[Parameter::Vertex],
        least: 1,
        of_vertex: Some(VertexLook::Offer),
        help: "
  offer V                what each further decision would make of V",
        ..PLAIN
    },
    CommandForm {
        word: "needs",
        written: "needs V",
        parameters: &[Parameter::Vertex],
        least: 1,
        of_vertex: Some(VertexLook::Needs),
        help: "
  needs V                what every product has that is left and won at V",
        ..PLAIN
    },
    CommandForm {
        word: "repair",
        written: "repair V",
        parameters: &[Parameter::Vertex],
        least: 1,
        of_vertex: Some(VertexLook::Repair),
        help: "
  repair V               what to retract so that Even wins at V in some product",
        ..PLAIN
    },
    CommandForm {
        word: "spoil",
        written: "spoil V",
        parameters: &[Parameter::Vertex],
        least: 1,
        of_vertex: Some(VertexLook::Moves(Which::Dual)),
        help: "
  spoil V                moves of Odd that win at V in every product left;
  plan V                 the same of Even",
        ..PLAIN
    },
    CommandForm {
        word: "trace",
        written: "trace V",
        parameters: &[Parameter::Vertex],
        least: 1,
        of_vertex: Some(VertexLook::Trace),
        help: "
  trace V                where V is hopeless or sure, how the winner wins there,
                         as steps of the system that stands in place of a game",
        ..PLAIN
    },
    CommandForm {
        word: "winners",
        written: "winners V",
        parameters: &[Parameter::Vertex],
        least: 1,
        of_vertex: Some(VertexLook::Winners),
        help: "
  winners V              which products that are left Even wins at V, and which
                         Odd, in parts",
        ..PLAIN
    },
    CommandForm {
        word: "decide",
        written: "decide V",
        parameters: &[Parameter::Vertex],
        least: 1,
        of_vertex: Some(VertexLook::Decide),
        help: "
  decide V               who wins at V in the products that are left, exactly",
        ..PLAIN
    },
    CommandForm {
        word: "forced",
        written: "forced",
        of_page: Some(PageLook::Forced),
        help: "
  forced                 what every product has that is left",
        ..PLAIN
    },
    CommandForm {
        word: "empty",
        written: "empty",
        of_page: Some(PageLook::Empty),
        help: "
  empty                  decisions that leave no product; else the first left",
        ..PLAIN
    },
    CommandForm {
        word: "number",
        written: "number",
        of_page: Some(PageLook::Number),
        help: "
  number                 how many products are left",
        ..PLAIN
    },
    CommandForm {
        word: "edges",
        written: "edges V",
        parameters: &[Parameter::Vertex],
        least: 1,
        of_vertex: Some(VertexLook::Edges),
        help: "
  edges V                where V's edges lead, and which are known to be in
                         every product left, or in none",
        ..PLAIN
    },
    CommandForm {
        word: "uses",
        written: "uses F",
        parameters: &[Parameter::Feature],
        least: 1,
        of_feature: Some(FeatureLook::Uses),
        help: "
  uses F                 the edges whose guard names F, and how many there are",
        ..PLAIN
    },
];

/// Returns the forms of all commands, in the order of their help.
pub fn all_forms() -> &'static [CommandForm]
    ensures { map form_shown result.now ≡ forms }
{
    FORMS
}

fn is_named(word: &[u8], form: &CommandForm) -> bool
    ensures { result ≡ is_named word.now (form_shown form.now) }
{
    form.word.as_bytes() == word
}

/// Returns the first of some forms that a word names.
fn named_in(forms: &[CommandForm], word: &[u8]) -> Option<CommandForm>
    ensures { result ≡ find (λ form. is_named word.now (form_shown form)) forms.now }
{
    forms.iter().copied().find(|form| is_named(word, form))
}

/// Returns the form of the command that a word names.
pub fn form_named(word: &[u8]) -> Option<CommandForm>
    ensures { option_map form_shown result ≡ form_named word.now }
{
    named_in(all_forms(), word)
}
