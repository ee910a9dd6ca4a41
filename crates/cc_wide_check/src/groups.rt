// The sections of a marked block: how many there are, and where one begins.

ghost use Rattle.std.specs.Prelude.{◌≡◌, ◌≤◌, false, length};
ghost use Rattle.cc_wide_check.specs.internal.Groups.{counted, cut_at};
ghost use Rattle.cc_wide_check.specs.internal.Sections.{section_count};
ghost use Rattle.cc_wide_check.specs.internal.Views.{wide_of};

use super::choices::begun;
use super::marks::label_of;
use cc_ast::Statement;

/// How many sections are compared one after another: more are in two groups.
pub(crate) const FEW_SECTIONS: usize = 8;

// How many sections have begun at the end of a block.
fn counted(all: &[Statement]) -> usize
    ensures is { result ≡ counted 0 false (wide_of all.now) }
    ensures within { result ≤ length all.now }
{
    let mut sections: usize = 0;
    let mut label = false;
    for s in all {
        if label_of(s).is_some() {
            sections = begun(label, sections);
            label = true;
        } else {
            label = false;
        }
    }
    sections
}

/// How many sections a block has.
pub(crate) fn section_count(all: &[Statement]) -> usize
    ensures is { result ≡ section_count (wide_of all.now) }
    ensures within { result ≤ length all.now }
{
    counted(all)
}

/// How many statements the first `half` sections of a block are.
pub(crate) fn cut(half: usize, all: &[Statement]) -> usize
    ensures is { result ≡ cut_at half false (wide_of all.now) }
    ensures within { result ≤ length all.now }
{
    let mut left = half;
    let mut label = false;
    for i in 0..all.len() {
        if label_of(&all[i]).is_some() {
            if !label {
                if left == 0 {
                    return i;
                }
                left -= 1;
            }
            label = true;
        } else {
            label = false;
        }
    }
    all.len()
}
