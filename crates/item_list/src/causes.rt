//! The first cause that applies, of a row of causes with their tests.
ghost use Rattle.item_list.specs.Causes.{IsFirstOf, tests_of};

/// Tells the first cause whose test is true, in the order of the row. It takes no memory.
///
/// # Errors
///
/// That cause. `Ok` comes where no test is true.
pub fn first_of<E: Copy>(row: &[(bool, E)]) -> Result<(), E>
    ensures { IsFirstOf (tests_of row.now) result }
{
    for (applies, cause) in row {
        if *applies {
            return Err(*cause);
        }
    }
    Ok(())
}
