// Checked images: which pieces link in which mode.

use cc_link::{Mode, compile_functions_in, link_pieces_in, typed_unit};
use std::alloc::Global;
use std::test::Fail;

// The number with which linking in mode `asked` refuses pieces of mode `of`; 0 if they link.
fn linked_in_another(alloc: Global, of: Mode, asked: Mode) -> Result<u32, Fail> {
    let unit = typed_unit(alloc, b"int f(void){return 1;}int main(void){return f();}")?;
    let pieces = compile_functions_in(alloc, of, &unit)?;
    match link_pieces_in(alloc, asked, &unit, pieces) {
        Ok(made) => {
            drop(made);
            Ok(0)
        }
        Err(fault) => Ok(fault.number()),
    }
}

#[test]
fn pieces_in_another_mode(rt: HostRuntime) -> Result<(), Fail> {
    let plain = linked_in_another(rt.alloc(), Mode::Checked, Mode::Plain)?;
    assert_eq!(rt; plain, 28);
    let checked = linked_in_another(rt.alloc(), Mode::Plain, Mode::Checked)?;
    assert_eq!(rt; checked, 28);
    let same = linked_in_another(rt.alloc(), Mode::Checked, Mode::Checked)?;
    assert_eq!(rt; same, 0);
    Ok(())
}
