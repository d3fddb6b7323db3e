//! Marks, and the numbers of those that are marked.
ghost use Rattle.std.specs.Prelude.{◌≡◌, IfOk};
ghost use Rattle.vpg_warnings.specs.Numbers.{numbers_from};

use std::alloc::{AllocError, Global};

/// Returns the numbers of the marks that are true, in order.
pub(crate) fn numbers_of(alloc: Global, marks: &[bool]) -> Result<Vec<usize>, AllocError>
    ensures { IfOk result (λ numbers. numbers.items ≡ numbers_from 0 marks.now) }
{
    let mut numbers = Vec::new(alloc);
    for (number, is_marked) in marks.iter().enumerate() {
        if *is_marked {
            numbers.push(number)?;
        }
    }
    Ok(numbers)
}
