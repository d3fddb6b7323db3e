//! The members of a group.
ghost use Rattle.std.specs.Prelude.{◌≡◌, ◌+◌, ◌<◌, ◌≤◌, length, IfOk};
ghost use Rattle.vpg_tree.specs.Tree.{members_from};

use std::alloc::{AllocError, Global};

/// Returns the members of a group, in order, where each feature below the root has a group.
pub(crate) fn members(alloc: Global, places: &[usize], group: usize) -> Result<Vec<u16>, AllocError>
    requires { length places.now ≤ 511 }
    ensures { IfOk result (λ list. list.items ≡ members_from 1 places.now group) }
{
    let mut list = Vec::new(alloc);
    let mut feature: u16 = 1;
    for place in places {
        if *place == group {
            list.push(feature)?;
        }
        feature += 1;
    }
    Ok(list)
}
