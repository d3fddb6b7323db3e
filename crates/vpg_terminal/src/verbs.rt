//! The commands of the program, and their arguments.

/// The kind of a command's argument.
#[derive(Clone, Copy)]
pub(crate) enum Kind {
    /// A word that has to be there.
    Word,
    /// The last word, which has to be there unless a system stands in place of the game.
    Last,
    /// One such word or more.
    Words,
    /// A word that may be left out.
    Optional,
    /// An option without a value.
    Flag,
    /// Such an option, which goes with another one, and without a third.
    Choice {
        with: &'static str,
        without: &'static str,
    },
    /// An option with a number of lifters as its value.
    Lifters,
    /// An option with a value, which goes with another option.
    Value {
        value: &'static str,
        with: &'static str,
    },
    /// Such an option, which may stand alone.
    Lone {
        value: &'static str,
    },
}

/// An argument of a command.
#[derive(Clone, Copy)]
pub(crate) struct Argument {
    pub(crate) kind: Kind,
    pub(crate) name: &'static str,
    pub(crate) help: &'static str,
}

/// A command of the program.
#[derive(Clone, Copy)]
pub(crate) struct Verb {
    pub(crate) name: &'static str,
    pub(crate) about: &'static str,
    /// Its words, if not all arguments stand together.
    pub(crate) usage: Option<&'static str>,
    /// Its first arguments, which other commands may share.
    pub(crate) first: &'static [Argument],
    /// Its other arguments.
    pub(crate) rest: &'static [Argument],
}

const GAME: Argument = Argument {
    kind: Kind::Word,
    name: "GAME",
    help: "A parity game in PGSolver's format with guards, `0 2 1 1[f];`",
};

const DIAGRAM: Argument = Argument {
    kind: Kind::Word,
    name: "DIAGRAM",
    help: "A feature diagram, or a feature model, as MODEL of `diagram`",
};

const LAST_DIAGRAM: Argument = Argument {
    kind: Kind::Last,
    ..DIAGRAM
};

const MODEL: Argument = Argument {
    kind: Kind::Word,
    name: "MODEL",
    help: "NAME.uvl in UVL, NAME.xml of FeatureIDE, else a diagram",
};

const SYSTEM: Argument = Argument {
    kind: Kind::Word,
    name: "SYSTEM",
    help: "A system in Aldebaran format with guards, `(0, \"a [f]\", 1)`",
};

const REQUIREMENTS: Argument = Argument {
    kind: Kind::Word,
    name: "REQUIREMENTS",
    help: "A formula as in mCRL2, or entries `live = always can a;`",
};

const SYSTEM_OPTION: Argument = Argument {
    kind: Kind::Value {
        value: "SYSTEM",
        with: "requirements",
    },
    name: "system",
    help: "In place of GAME: the behaviour of the family",
};

const DRAWN_SYSTEM_OPTION: Argument = Argument {
    kind: Kind::Lone { value: "SYSTEM" },
    name: "system",
    help: "In place of GAME: a system, drawn itself if alone",
};

const REQUIREMENTS_OPTION: Argument = Argument {
    kind: Kind::Value {
        value: "FILE",
        with: "system",
    },
    name: "requirements",
    help: "The formulas that the system is to meet",
};

const EXPLAIN: Argument = Argument {
    kind: Kind::Flag,
    name: "explain",
    help: "Say where and why an input is refused",
};

const LIFTERS: Argument = Argument {
    kind: Kind::Lifters,
    name: "lifters",
    help: "Threads that raise the tables, 1 to 64",
};

const NAMES: Argument = Argument {
    kind: Kind::Flag,
    name: "names",
    help: "Show the names of vertices beside answers",
};

const CONFIG: Argument = Argument {
    kind: Kind::Lone { value: "FILE" },
    name: "config",
    help: "Decide first as this file does: names, or NAME.xml",
};

const JSON: Argument = Argument {
    kind: Kind::Flag,
    name: "json",
    help: "Write each answer as an object of JSON in one line",
};

const XML: Argument = Argument {
    kind: Kind::Flag,
    name: "xml",
    help: "Write FeatureIDE's XML, with decisions, not names",
};

const SCRIPT: Argument = Argument {
    kind: Kind::Last,
    name: "SCRIPT",
    help: "One command a line, as `select f`, `settle` or `show`",
};

const STRICT: Argument = Argument {
    kind: Kind::Flag,
    name: "strict",
    help: "End at the first refused line, with status 3",
};

const KEEP_GOING: Argument = Argument {
    kind: Kind::Flag,
    name: "keep-going",
    help: "Answer a line with a fault `refused ..`, and go on",
};

const FEATURE: Argument = Argument {
    kind: Kind::Words,
    name: "FEATURE",
    help: "The features of the product, all of them, the root among them",
};

const DRAWN_SCRIPT: Argument = Argument {
    kind: Kind::Optional,
    name: "SCRIPT",
    help: "Draw the page that the lines of this file leave",
};

const FEATURES: Argument = Argument {
    kind: Kind::Flag,
    name: "features",
    help: "Draw the feature diagram in place of the game",
};

const STATES: Argument = Argument {
    kind: Kind::Choice {
        with: "system",
        without: "features",
    },
    name: "states",
    help: "Draw the system in place of its game",
};

const TRACE: Argument = Argument {
    kind: Kind::Value {
        value: "V",
        with: "states",
    },
    name: "trace",
    help: "Mark the trace that `trace V` writes on the page",
};

/// The first arguments of a command on a family, with a script.
const SCRIPTED: &[Argument] = &[
    GAME,
    DIAGRAM,
    EXPLAIN,
    SCRIPT,
    SYSTEM_OPTION,
    REQUIREMENTS_OPTION,
];

/// The first arguments of a command on a family, without a script.
const FAMILY: &[Argument] = &[GAME, LAST_DIAGRAM, SYSTEM_OPTION, REQUIREMENTS_OPTION];

/// The commands in the order of the help. All but one are over the files of a family.
pub(crate) static VERBS: [Verb; 9] = [
    Verb {
        name: "run",
        about: "Carries a script out on a family",
        usage: Some(
            "\
vpgdesk run [OPTIONS] <GAME> <DIAGRAM> <SCRIPT>
       vpgdesk run [OPTIONS] --system <SYSTEM> --requirements <FILE>
                   <DIAGRAM> <SCRIPT>",
        ),
        first: SCRIPTED,
        rest: &[LIFTERS, CONFIG, STRICT, KEEP_GOING, NAMES, JSON],
    },
    Verb {
        name: "desk",
        about: "Answers commands as they are typed, on a family",
        usage: Some(
            "\
vpgdesk desk [OPTIONS] <GAME> <DIAGRAM>
       vpgdesk desk [OPTIONS] --system <SYSTEM> --requirements <FILE> <DIAGRAM>",
        ),
        first: FAMILY,
        rest: &[LIFTERS, NAMES, JSON],
    },
    Verb {
        name: "export",
        about: "Writes the configuration that a script leaves",
        usage: Some(
            "\
vpgdesk export [OPTIONS] <GAME> <DIAGRAM> <SCRIPT>
       vpgdesk export [OPTIONS] --system <SYSTEM> --requirements <FILE>
                      <DIAGRAM> <SCRIPT>",
        ),
        first: SCRIPTED,
        rest: &[XML],
    },
    Verb {
        name: "model",
        about: "Writes the game of a system and its requirements",
        usage: None,
        first: &[SYSTEM, REQUIREMENTS, DIAGRAM],
        rest: &[EXPLAIN],
    },
    Verb {
        name: "diagram",
        about: "Writes the diagram that a feature model means",
        usage: None,
        first: &[MODEL],
        rest: &[EXPLAIN],
    },
    Verb {
        name: "project",
        about: "Writes the plain parity game of one product",
        usage: None,
        first: &[GAME, DIAGRAM],
        rest: &[EXPLAIN, FEATURE],
    },
    Verb {
        name: "check",
        about: "Counts vertices, edges, features and measures",
        usage: Some(
            "\
vpgdesk check [OPTIONS] <GAME> <DIAGRAM>
       vpgdesk check [OPTIONS] --system <SYSTEM> --requirements <FILE> <DIAGRAM>",
        ),
        first: FAMILY,
        rest: &[EXPLAIN],
    },
    Verb {
        name: "lint",
        about: "Says where a family is, or looks, wrong",
        usage: Some(
            "\
vpgdesk lint <GAME> <DIAGRAM>
       vpgdesk lint --system <SYSTEM> --requirements <FILE> <DIAGRAM>",
        ),
        first: FAMILY,
        rest: &[],
    },
    Verb {
        name: "draw",
        about: "Draws a game, or a system, as a Graphviz text",
        usage: Some(
            "\
vpgdesk draw [OPTIONS] <GAME> <DIAGRAM> [SCRIPT]
       vpgdesk draw [OPTIONS] --system <SYSTEM> --requirements <FILE>
                    <DIAGRAM> [SCRIPT]
       vpgdesk draw [OPTIONS] --system <SYSTEM> <DIAGRAM>",
        ),
        first: &[
            GAME,
            LAST_DIAGRAM,
            EXPLAIN,
            DRAWN_SCRIPT,
            DRAWN_SYSTEM_OPTION,
        ],
        rest: &[REQUIREMENTS_OPTION, FEATURES, STATES, TRACE],
    },
];

/// Returns the command of a name.
pub(crate) fn verb_of(name: &str) -> Option<Verb> {
    VERBS.iter().copied().find(|verb| verb.name == name)
}
