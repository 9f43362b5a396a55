//! Lists of shapes.
ghost use Rattle.std.specs.Prelude.{◌≡◌, ◌++◌, OnOk, option_to_list};

use crate::shape::Shape;
use std::alloc::AllocError;

/// Adds the shape, if there is one.
pub(crate) fn push_some(shapes: &mut Vec<Shape>, shape: Option<Shape>) -> Result<(), AllocError>
    ensures { OnOk result (shapes.new.items ≡ shapes.old.items ++ option_to_list shape) }
{
    if let Some(shape) = shape {
        shapes.push(shape)?;
    }
    Ok(())
}
