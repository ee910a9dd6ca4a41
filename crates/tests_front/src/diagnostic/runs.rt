// Runs about which there is no message.

use cc_meaning::Cause;
use cc_run_diagnostic::of_wrong;
use std::alloc::Global;
use std::test::Fail;
use tests_texts::verdict::each_passes;

// Texts whose run does not go wrong for this cause within 5 steps, and texts that are not programs.
type Silent = (&'static str, Cause);

static SILENT: [Silent; 5] = [
    ("int main(void){return 1/0;}", Cause::Shift),
    ("int main(void){return 1;}", Cause::Division),
    ("int main(void){while(1);return 1/0;}", Cause::Division),
    ("int f(void){return 1/0;}", Cause::Division),
    ("int main(void){return 1/0", Cause::Division),
];

// Whether there is no message about a run for a cause.
fn is_silent(alloc: Global, row: &Silent) -> Result<bool, Fail> {
    let told = of_wrong(alloc, row.0.as_bytes(), &[], 5, row.1)?;
    Ok(told.is_none())
}

#[test]
fn runs_of_which_nothing_is_told(rt: HostRuntime) -> Result<(), Fail> {
    each_passes(rt.alloc(), SILENT.as_slice(), is_silent)
}
