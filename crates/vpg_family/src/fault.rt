//! Why a call of the program fails.
ghost use Rattle.std.specs.Prelude.{◌≡◌};
ghost use Rattle.vpg_family.specs.declared.fault.Fault.TheVariants.{Memory};

use std::alloc::AllocError;
use std::fmt;
use thiserror::Error;
use vpg_configuration::ConfigurationFault;
use vpg_diagram::DiagramFault;
use vpg_formula::RequirementFault;
use vpg_game::GameFault;
use vpg_model::ModelFault;
use vpg_models::FormFault;
use vpg_script::LineFault;
use vpg_system::SystemFault;

/// A file that is read as a whole.
#[derive(Clone, Copy, Debug, Drop, PartialEq, Eq)]
pub enum Input {
    Diagram,
    Game,
    System,
    Requirements,
    Script,
}

impl fmt::Display for Input {
    fn fmt<W: fmt::Write>(&self, f: &mut fmt::Formatter<W>) -> fmt::Result {
        f.write_str(match self {
            Input::Diagram => "diagram",
            Input::Game => "game",
            Input::System => "system",
            Input::Requirements => "requirements",
            Input::Script => "script",
        })
    }
}

/// Writes that a word names no feature, with `?` for each control character of the word.
fn put_unknown<W: fmt::Write>(word: &String, f: &mut fmt::Formatter<W>) -> fmt::Result {
    f.write_str("UnknownFeature ")?;
    for c in word.chars() {
        f.write_char(if c.is_ascii_control() { '?' } else { c })?;
    }
    Ok(())
}

/// Writes that the requirement of a name is too long.
fn put_long<W: fmt::Write>(name: &Vec<u8>, f: &mut fmt::Formatter<W>) -> fmt::Result {
    f.write_str("requirements TooManyParts ")?;
    for b in name {
        f.write_char(char::from(*b))?;
    }
    Ok(())
}

/// Writes that a line `trace` was answered so, without a trace.
fn put_untraced<W: fmt::Write>(answer: &Vec<u8>, f: &mut fmt::Formatter<W>) -> fmt::Result {
    f.write_str("NoTrace ")?;
    for b in answer {
        f.write_char(char::from(*b))?;
    }
    Ok(())
}

/// A fault. `specs/Faults` has the message about each; `line_of` writes it after the program's name.
#[derive(Debug, Drop, Error)]
pub enum Fault {
    #[error("diagram unreadable")]
    DiagramUnreadable,
    #[error("diagram {fault}")]
    Diagram { fault: DiagramFault },
    /// The file of the diagram is no feature model in the language of its name.
    #[error("{fault}")]
    FeatureModel { fault: FormFault },
    #[error("game unreadable")]
    GameUnreadable,
    #[error("game {fault}")]
    Game { fault: GameFault },
    #[error("system unreadable")]
    SystemUnreadable,
    #[error("system {fault}")]
    System { fault: SystemFault },
    #[error("requirements unreadable")]
    RequirementsUnreadable,
    #[error("requirements {fault}")]
    Requirements { fault: RequirementFault },
    /// The requirement of this name has more than 65,536 parts.
    #[error(fmt = put_long)]
    TooManyParts { name: Vec<u8> },
    /// The game of a system and its requirements is beyond the limits of games.
    #[error("model {fault}")]
    Model { fault: ModelFault },
    /// The file of a configuration is no configuration in the language of its name.
    #[error("configuration {fault}")]
    Configuration { fault: ConfigurationFault },
    #[error("script unreadable")]
    ScriptUnreadable,
    /// The file has more than 268,435,456 bytes.
    #[error("{input} TooLarge")]
    TooLarge { input: Input },
    /// The file of the game has more than 8,388,608 signs `!`, `&` and `|`: the first one above stands here.
    #[error("game TooManySigns {at}")]
    TooManySigns { at: usize },
    /// Some priority of the game is 65,536.
    #[error("game AtLimit")]
    AtLimit,
    /// The diagram alone has a conflict, which names its root.
    #[error("Conflict {feature}")]
    Conflict { feature: String },
    /// The line of this number, from 1, is no command.
    #[error("script Line {line} {fault}")]
    Line { line: u64, fault: LineFault },
    /// The script's reader failed.
    #[error("script Read")]
    Read,
    /// Standard output failed.
    #[error("Write")]
    Write,
    /// The diagram has no feature of this name, which is any word.
    #[error(fmt = put_unknown)]
    UnknownFeature { name: String },
    /// The features that were named are no product.
    #[error("NotAProduct")]
    NotAProduct,
    #[error("Memory")]
    Memory,
    /// A script left no room in the log for a look at its page.
    #[error("script LogFull")]
    LogFull,
    /// The office of a run had a call that no line of its script made.
    #[error("script Stray")]
    Stray,
    /// The line `trace` after a script has this answer, which is no trace.
    #[error(fmt = put_untraced)]
    NoTrace { answer: Vec<u8> },
}

impl From<AllocError> for Fault {
    ghost from_gives = { λ _ fault. fault ≡ Memory };

    fn from(_: AllocError) -> Fault {
        Fault::Memory
    }
}
