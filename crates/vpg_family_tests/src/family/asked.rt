//! Questions of rows about families in texts.
ghost use Rattle.std.specs.Arc.{arc_value};
ghost use Rattle.std.specs.Prelude.{◌≡◌};
ghost use Rattle.vpg_diagram.specs.FeatureDiagram.{feature_count};

use super::PATHS;
use super::rows::{Row, TABLES, row_of};
use crate::said::Said;
use std::alloc::{AllocError, Global};
use std::test::*;
use vpg_family::{Family, Fault, Subject, Texts, drawn, linted, system_drawn};

/// Returns the text that was made, if there is memory for it.
fn kept(made: Result<Vec<u8>, AllocError>) -> Result<Vec<u8>, Fault> {
    match made {
        Ok(text) => Ok(text),
        Err(_) => Err(Fault::Memory),
    }
}

/// Returns the plain game of the product of these features.
fn projected(alloc: Global, family: &Family, features: &str) -> Result<Vec<u8>, Fault>
    requires { (arc_value family.now.game).features ≡ feature_count (arc_value family.now.diagram).lines }
{
    let words: Vec<&str> = features.split(' ').collect(alloc)?;
    family.again()?.projected(alloc, &words)
}

/// Returns the texts of the family.
fn texts(alloc: Global, row: &Row<'_>) -> Result<Texts, AllocError> {
    let diagram = Vec::from_slice(alloc, row.diagram.as_bytes())?;
    let game = Vec::from_slice(alloc, row.game.as_bytes())?;
    Ok(Texts {
        diagram,
        model: Vec::new(alloc),
        game,
        entries: Vec::new(alloc),
        vertices: Vec::new(alloc),
        system: Vec::new(alloc),
        requirements: Vec::new(alloc),
        behaviour: None,
    })
}

/// Returns the text about a family.
fn of_family(alloc: Global, family: &Family, row: &Row<'_>) -> Result<Vec<u8>, Fault>
    requires { (arc_value family.now.game).features ≡ feature_count (arc_value family.now.diagram).lines }
{
    match row.asked {
        "check" => kept(family.counted(alloc)),
        _ => projected(alloc, family, row.text),
    }
}

/// Returns the text about the family of two texts.
fn of_texts(alloc: Global, row: &Row<'_>) -> Result<Vec<u8>, Fault> {
    match Family::read(alloc, row.diagram.as_bytes(), row.game.as_bytes()) {
        Ok(family) => of_family(alloc, &family, row),
        Err(fault) => Err(fault),
    }
}

/// Returns the warnings of the family of two texts.
fn warned(alloc: Global, row: &Row<'_>) -> Result<Vec<u8>, Fault> {
    match texts(alloc, row) {
        Ok(texts) => linted(alloc, PATHS, &texts),
        Err(_) => Err(Fault::Memory),
    }
}

/// Returns the text for a row.
fn answer(alloc: Global, row: &Row<'_>) -> Result<Vec<u8>, Fault> {
    let diagram = row.diagram.as_bytes();
    let game = row.game.as_bytes();
    match row.asked {
        "draw" => drawn(alloc, Subject::Game, diagram, game),
        "draw-features" => drawn(alloc, Subject::Features, diagram, game),
        "draw-system" => system_drawn(alloc, diagram, game),
        "lint" => warned(alloc, row),
        _ => of_texts(alloc, row),
    }
}

fn holds(alloc: Global, writing: &str) -> bool {
    let row = row_of(writing);
    let mut said = Said::new(alloc);
    said.put_answer(answer(alloc, &row));
    said.text() == row.written
}

/// Returns the first row of a table that doesn't hold.
fn first_of_table(alloc: Global, table: &'static str) -> Option<&'static str> {
    for writing in table.split('§') {
        if !writing.is_empty() && !holds(alloc, writing) {
            return Some(writing);
        }
    }
    None
}

/// Returns the first row that doesn't hold.
fn first_wrong(alloc: Global) -> Option<&'static str> {
    for table in TABLES {
        if let Some(wrong) = first_of_table(alloc, table) {
            return Some(wrong);
        }
    }
    None
}

#[test]
fn families_and_what_is_asked_of_them(rt: HostRuntime) -> Result<(), Fail> {
    assert_eq!(rt; first_wrong(rt.alloc()), None);
    Ok(())
}
