// Scripts of short commands.

use cc_short::{MOST_SOURCE, ShortCommand, script_of};
use std::alloc::Global;
use std::test::Fail;

// Whether the script of a command is this text.
fn is_script(alloc: Global, command: ShortCommand<'_>, text: &[u8]) -> bool {
    match script_of(alloc, command) {
        Ok(script) => script.as_slice() == text,
        Err(_) => false,
    }
}

// Whether a command is refused with this number.
fn is_refused(alloc: Global, command: ShortCommand<'_>, number: u32) -> bool {
    match script_of(alloc, command) {
        Ok(script) => {
            drop(script);
            false
        }
        Err(fault) => fault.number() == number,
    }
}

#[test]
fn commands_have_scripts(rt: HostRuntime) -> Result<(), Fail> {
    let alloc = rt.alloc();
    let (name, source) = (b"sum", b"int main(void){}");
    assert!(rt;
        is_script(
            alloc,
            ShortCommand::Add { name, source },
            b"add sum 16\nint main(void){}"
        )
    );
    assert!(rt;
        is_script(
            alloc,
            ShortCommand::Replace { name, source },
            b"replace sum 16\nint main(void){}"
        )
    );
    assert!(rt; is_script(alloc, ShortCommand::Withdraw { name }, b"withdraw sum\n"));
    assert!(rt; is_script(alloc, ShortCommand::List, b"list\n"));
    assert!(rt; is_script(alloc, ShortCommand::Compact, b"compact\n"));
    assert!(rt; is_script(alloc, ShortCommand::Audit, b"audit\n"));
    Ok(())
}

#[test]
fn names_and_sources_are_refused(rt: HostRuntime) -> Result<(), Fail> {
    let alloc = rt.alloc();
    let mut long = Vec::new(alloc);
    long.resize(MOST_SOURCE + 1, b' ')?;
    let source = long.as_slice();
    assert!(rt;
        is_refused(
            alloc,
            ShortCommand::Add {
                name: b"a b",
                source
            },
            33
        )
    );
    assert!(rt; is_refused(alloc, ShortCommand::Withdraw { name: b"" }, 33));
    assert!(rt; is_refused(alloc, ShortCommand::Add { name: b"a", source }, 7));
    Ok(())
}
