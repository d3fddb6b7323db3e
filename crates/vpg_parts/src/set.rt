//! Sets of actions.
use std::marker::Model;

/// The actions that a step may have: for each action, by its number, whether it is one of them.
#[derive(Drop)]
pub struct Permitted {
    pub actions: Vec<bool>,
}

impl Model for Permitted {
    ghost use Rattle.std.specs.Prelude.{List, Bool};
    ghost use Rattle.std.specs.Coded.{coded_list, coded_bool};

    ghost Value = { List Bool };

    ghost coded = { coded_list coded_bool };

    ghost view = { λ s. s.actions.items };
}
