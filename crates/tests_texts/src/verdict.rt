// The result of a test. Tests end with one of these calls, since a test that passed its errors on by itself and asserted would
// take seconds to prove.

use std::alloc::Global;
use std::test::Fail;

/// Ok if what a test checks is as it should be.
pub fn passes(answer: Result<bool, Fail>) -> Result<(), Fail> {
    match answer {
        Ok(true) => Ok(()),
        Ok(false) => Err(Fail::from("it is not as it has to be")),
        Err(fail) => Err(fail),
    }
}

/// As `passes`, but a failure also has this text.
pub fn passes_for(answer: Result<bool, Fail>, text: &str) -> Result<(), Fail> {
    match answer {
        Ok(true) => Ok(()),
        Ok(false) => Err(Fail::new(format_args!("it is not as it has to be: {text}"))),
        Err(fail) => Err(fail),
    }
}

/// Ok if the row of this number is as it should be; otherwise the failure has the number.
pub fn row_passes(number: usize, answer: Result<bool, Fail>) -> Result<(), Fail> {
    match answer {
        Ok(true) => Ok(()),
        Ok(false) => Err(Fail::new(format_args!("row {number} is not as it has to be"))),
        Err(fail) => Err(fail),
    }
}

/// Ok if each row of a table is as it should be; otherwise the failure has the number of the first row that is not.
pub fn each_passes<T, F: Fn(Global, &T) -> Result<bool, Fail>>(
    alloc: Global,
    rows: &[T],
    is_right: F,
) -> Result<(), Fail>
    requires { F.IsAlwaysCallable is_right }
{
    for (number, row) in rows.iter().enumerate() {
        row_passes(number, is_right(alloc, row))?;
    }
    Ok(())
}
