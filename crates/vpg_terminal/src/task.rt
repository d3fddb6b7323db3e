//! The tasks that the words ask for.
use vpg_family::{Paths, Subject};
use vpg_script::{Form, Manner};

/// The task of a command line, and whether its faults are explained.
#[derive(Drop)]
pub struct Invocation<'a> {
    pub task: Task<'a>,
    /// Whether lines are to say where and why an input is refused.
    pub explains: bool,
}

/// The subject of a picture.
#[derive(Clone, Copy, PartialEq, Eq)]
pub enum Picture {
    /// The game, or the feature diagram.
    Family(Subject),
    /// The system.
    System,
}

/// A run of a script's file.
#[derive(Clone, Copy)]
pub struct ScriptRun<'a> {
    pub script: &'a str,
    /// A configuration whose features are selected before the script.
    pub config: Option<&'a str>,
    /// From 1 to 64.
    pub lifters: u32,
    pub manner: Manner,
    /// Whether lines about vertices end with the names of these.
    pub is_named: bool,
}

/// A script that is typed in.
#[derive(Clone, Copy)]
pub struct Talk {
    /// From 1 to 64.
    pub lifters: u32,
    pub form: Form,
    /// Whether lines about vertices end with the names of these.
    pub is_named: bool,
}

/// The work on a family.
pub enum Work<'a> {
    Run(ScriptRun<'a>),
    Desk(Talk),
    /// The game of a system and its requirements.
    Model,
    /// The configuration on the page that a script leaves.
    Export {
        script: &'a str,
        /// It is written in FeatureIDE's XML.
        xml: bool,
    },
    /// The plain game of the product that has just these features.
    Project {
        features: Vec<&'a str>,
    },
    /// The counts.
    Check,
    Lint,
    /// A picture, on the page that a script leaves if there is one.
    Draw {
        picture: Picture,
        script: Option<&'a str>,
        /// The vertex whose trace is marked on the picture of the system, as a line of a script names it.
        trace: Option<&'a str>,
    },
}

// Not derived: a derived `drop` would be proved again at each exit that owns such a value.
impl Drop for Work<'_> {
    fn drop(self) {
        match self {
            Work::Run(_) | Work::Desk(_) | Work::Model | Work::Check | Work::Lint => {}
            Work::Export { script: _, xml: _ } => {}
            Work::Project { features: _ } => {}
            Work::Draw {
                picture: _,
                script: _,
                trace: _,
            } => {}
        }
    }
}

impl<'a> Work<'a> {
    /// Returns the file of its script, if it has one.
    pub fn script(&self) -> Option<&'a str> {
        match self {
            Work::Run(run) => Some(run.script),
            Work::Export { script, .. } => Some(*script),
            Work::Draw { script, .. } => *script,
            _ => None,
        }
    }
}

/// The task to be done.
#[derive(Drop)]
pub enum Task<'a> {
    /// A script from standard input, on the built-in family.
    BuiltIn,
    /// The diagram of a file, which may have a feature model that means it.
    Diagram { path: &'a str },
    /// Work on the family of some files.
    Family { paths: Paths<'a>, work: Work<'a> },
}
