//! The terms that tie an office's row, lock, fronts and tokens together.
use std::marker::Brand;
use std::sync::ledger::Ledger;

/// The terms of an office: its row and its ledger, its game and diagram, and how many calls its log takes. Each call of
/// a program that opens an office picks them.
pub trait Terms: Ledger {
    ghost use Rattle.std.specs.Prelude.{ℕ};
    ghost use Rattle.boxcar.specs.Table.{Shelves};
    ghost use Rattle.vpg_diagram.specs.DiagramText.{NamedDiagram};
    ghost use Rattle.vpg_game.specs.Game.{NamedGame};

    ghost shelves: { Shelves };

    ghost game: { NamedGame };

    ghost diagram: { NamedDiagram };

    ghost limit: { ℕ };
}

impl Terms for Brand {
    ghost use Rattle.std.specs.Prelude.{[]};

    ghost shelves = { record { tag = []; buckets = [] } };

    ghost game = { record { vertices = []; features = 0 } };

    ghost diagram = { record { names = []; lines = [] } };

    ghost limit = { 0 };
}
