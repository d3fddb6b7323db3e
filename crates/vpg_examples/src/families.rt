//! The example families in the folder that the program runs in.
ghost use Rattle.std.specs.Arc.{arc_value};
ghost use Rattle.std.specs.Prelude.{◌≡◌};
ghost use Rattle.vpg_diagram.specs.FeatureDiagram.{feature_count};

use crate::family::{Family, run_on};
use anyhow::{Context, Result, bail};
use std::alloc::{AllocError, Global};
use std::fs::{self, File};
use std::sync::Wait;
use std::thread::Threads;
use vpg_family::{GamePaths, Known, ModelPaths, Paths, read_known};
use vpg_report::run_script;
use vpg_script::{Device, Form, Manner};

/// Each line is answered, and a fault ends the script.
const PLAIN: Manner = Manner {
    is_strict: false,
    goes_on: false,
    form: Form::Plain,
};

/// A script of a family: the line that stands before its answers, the folder, and the file.
type Script = (&'static str, &'static str, &'static str);

/// The scripts of the families, and those about each vertex and each product.
const SCRIPTS: [Script; 8] = [
    ("mine_pump", "mine_pump", "script"),
    ("vending_machine", "vending_machine", "script"),
    ("elevator", "elevator", "script"),
    ("body_comfort", "body_comfort", "script"),
    ("sessions", "sessions", "script"),
    ("mine_pump, each product", "mine_pump", "each"),
    ("vending_machine, each product", "vending_machine", "each"),
    ("elevator, each product", "elevator", "each"),
];

/// The folders of the families that are systems with requirements.
const SYSTEMS: [&str; 4] = [
    "vending_system",
    "mine_pump_system",
    "alternating_bit",
    "elevator_system",
];

/// Returns the path of a file of a family.
fn path_of(alloc: Global, family: &str, file: &str) -> Result<String, AllocError> {
    format!(in alloc; "{family}/{file}")
}

/// Returns the text of a file of a family.
fn text_of(rt: &HostRuntime, alloc: Global, family: &str, file: &str) -> Result<Vec<u8>> {
    let path = path_of(alloc, family, file)?;
    Ok(fs::read(rt, path.as_str())?)
}

fn script_of(rt: &HostRuntime, alloc: Global, family: &str, file: &str) -> Result<File> {
    let path = path_of(alloc, family, file)?;
    Ok(File::open(rt, path.as_str())?)
}

/// Returns the family in a folder.
fn family_in(rt: &HostRuntime, alloc: Global, name: &str) -> Result<Family> {
    let diagram = text_of(rt, alloc, name, "diagram")?;
    let game = text_of(rt, alloc, name, "game")?;
    Family::read(alloc, &diagram, &game)
}

/// Answers a script on standard output.
fn answer<T: Threads + Wait + Sync>(
    rt: &HostRuntime,
    threads: &T,
    alloc: Global,
    family: &Family,
    script: File,
) -> Result<()> {
    let mut reader = Device::reader(script);
    let mut writer = Device::writer(rt.stdout().lock());
    match run_on(threads, alloc, family, 1, None, &mut reader, &mut writer) {
        Some(Ok(_)) => Ok(()),
        Some(Err(fault)) => Err(fault.into()),
        None => bail!("no run"),
    }
}

/// Carries out a script of a family. The runtime is handed in twice: for its files, and for threads.
fn carry_out<T: Threads + Wait + Sync>(
    rt: &HostRuntime,
    threads: &T,
    alloc: Global,
    folder: &str,
    file: &str,
) -> Result<()> {
    let script = script_of(rt, alloc, folder, file)?;
    let family = family_in(rt, alloc, folder)?;
    answer(rt, threads, alloc, &family, script)
}

/// Carries a script out on a family, with the names of its vertices.
fn answer_called<T: Threads + Wait + Sync>(
    rt: &HostRuntime,
    threads: &T,
    alloc: Global,
    known: &Known,
    script: File,
) -> Result<()>
    requires { (arc_value known.now.family.game).features ≡ feature_count (arc_value known.now.family.diagram).lines }
{
    let family = known.family.again()?;
    let mut reader = Device::reader(script);
    let mut writer = Device::writer(rt.stdout().lock());
    match run_script(
        threads,
        alloc,
        family,
        &known.context,
        &mut reader,
        &mut writer,
        1,
        PLAIN,
    ) {
        Ok(_) => Ok(()),
        Err(fault) => Err(fault.into()),
    }
}

/// Carries out the script of a system, which names requirements.
fn carry_out_system<T: Threads + Wait + Sync>(
    rt: &HostRuntime,
    threads: &T,
    alloc: Global,
    name: &str,
) -> Result<()> {
    println!(rt; "{name}")?;
    let system = path_of(alloc, name, "system.aut")?;
    let requirements = path_of(alloc, name, "requirements.mcf")?;
    let diagram = path_of(alloc, name, "diagram")?;
    let files = ModelPaths {
        system: system.as_str(),
        requirements: requirements.as_str(),
    };
    let paths = Paths {
        game: GamePaths::Model(files),
        diagram: diagram.as_str(),
    };
    let script = script_of(rt, alloc, name, "script")?;
    match read_known(rt, alloc, paths) {
        Ok(known) => answer_called(rt, threads, alloc, &known, script),
        Err(unread) => Err(unread.fault.into()),
    }
}

/// Carries out the script of each system.
fn carry_out_systems<T: Threads + Wait + Sync>(
    rt: &HostRuntime,
    threads: &T,
    alloc: Global,
) -> Result<()> {
    for name in SYSTEMS {
        carry_out_system(rt, threads, alloc, name).context(name)?;
    }
    Ok(())
}

/// Carries out the scripts of each family.
pub(crate) fn carry_out_all<T: Threads + Wait + Sync>(
    rt: &HostRuntime,
    threads: &T,
    alloc: Global,
) -> Result<()> {
    for (title, folder, file) in SCRIPTS {
        println!(rt; "{title}")?;
        carry_out(rt, threads, alloc, folder, file).context(title)?;
    }
    carry_out_systems(rt, threads, alloc)
}
