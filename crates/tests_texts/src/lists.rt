// Lists of one item and of two.

use std::alloc::{AllocError, Global};

/// A list of one item.
pub fn alone<T: Drop>(alloc: Global, item: T) -> Result<Vec<T>, AllocError> {
    let mut items = Vec::with_capacity(alloc, 1)?;
    items.push(item)?;
    Ok(items)
}

/// A list of two items.
pub fn both<T: Drop>(alloc: Global, one: T, other: T) -> Result<Vec<T>, AllocError> {
    let mut items = Vec::with_capacity(alloc, 2)?;
    items.push(one)?;
    items.push(other)?;
    Ok(items)
}
