// Leaves out the labels to which nothing leads.

ghost use Rattle.std.specs.Prelude.{◌≡◌, ℕ, ◌↔◌, ◌<◌, IfOk};
ghost use Rattle.std.specs.List.{Contains};
ghost use Rattle.cc_linear.specs.Targets.{targets};
ghost use Rattle.cc_linear.specs.internal.Idle.{IsRising, stays as has_its_place, kept as without};

use cc_linear_language::LinearItem;
use std::alloc::{AllocError, Global};

/// The items without the labels to which no jump and no branch leads. Err: memory ran out.
pub fn without_idle(alloc: Global, items: &[LinearItem]) -> Result<Vec<LinearItem>, AllocError>
    ensures { IfOk result (λ kept. kept.items ≡ without (targets items.now) items.now) }
{
    let led = sorted_targets(alloc, items)?;
    let mut kept = Vec::with_capacity(alloc, items.len())?;
    for item in items {
        if stays(&led, item) {
            kept.push(*item)?;
        }
    }
    Ok(kept)
}

// The labels of jumps and branches, in ascending order.
fn sorted_targets(alloc: Global, items: &[LinearItem]) -> Result<Vec<u32>, AllocError>
    ensures same { IfOk result (λ led. (l : ℕ) → Contains led.items l ↔ Contains (targets items.now) l) }
    ensures rising { IfOk result (λ led. IsRising led.items) }
{
    let mut led = Vec::new(alloc);
    for item in items {
        match *item {
            LinearItem::Jump { to }
            | LinearItem::IfNonzero { to, .. }
            | LinearItem::IfZero { to, .. } => {
                led.push(to)?;
            }
            _ => {}
        }
    }
    led.sort_unstable();
    Ok(led)
}

// Whether an item stays, given the labels to which jumps and branches lead.
fn stays(led: &[u32], item: &LinearItem) -> bool
    requires { IsRising led.now }
    ensures { result ≡ has_its_place led.now item.now }
{
    match *item {
        LinearItem::Label { label } => led.binary_search(&label).is_ok(),
        _ => true,
    }
}
