// Fault lines take the fault's name from one table, by its number. Here that name is compared, for every fault, with the name
// that the fault itself has.

use cc_answers::name_of;
use cc_library::{LibraryFault, NameFault};
use cc_link::{LinkFault, PieceFault};
use cc_script::ScriptFault;
use cc_service::{BookFault, ServiceFault};
use cc_spool::SpoolFault;
use cc_tasks::Fault;
use cc_tokens::{Place, SyntaxFault};
use cc_types::TypeFault;
use std::alloc::{AllocError, Global};
use std::fmt::Display;

// Whether this is the name of the fault with this number.
fn is_named<F: Display + Drop>(alloc: Global, fault: F, number: u32) -> Result<bool, AllocError> {
    let name = format!(in alloc; "{fault}")?;
    Ok(!name.is_empty() && name.as_str() == name_of(number))
}

// Whether each of these faults has the name that belongs to its number.
fn are_named<F: Display + Drop>(alloc: Global, faults: Vec<(F, u32)>) -> Result<bool, AllocError> {
    for (fault, number) in faults {
        if !is_named(alloc, fault, number)? {
            return Ok(false);
        }
    }
    Ok(true)
}

const AT: Place = Place { line: 1, column: 1 };

#[test]
fn names_of_a_text(rt: HostRuntime) -> Result<(), AllocError> {
    let alloc = rt.alloc();
    let syntax = vec![in alloc;
        (SyntaxFault::BadByte(AT), 1),
        (SyntaxFault::UnclosedComment(AT), 2),
        (SyntaxFault::BadConstant(AT), 3),
        (SyntaxFault::ConstantTooLarge(AT), 4),
        (SyntaxFault::Unexpected(AT), 5),
        (SyntaxFault::TooDeep(AT), 6),
        (SyntaxFault::SourceTooLarge, 7),
        (SyntaxFault::OutOfMemory, 40),
    ]?;
    assert!(rt; are_named(alloc, syntax)?);
    let types = vec![in alloc;
        (TypeFault::Unknown(AT), 11),
        (TypeFault::Redeclared(AT), 12),
        (TypeFault::WrongKind(AT), 13),
        (TypeFault::WrongCount(AT), 14),
        (TypeFault::VoidValue(AT), 15),
        (TypeFault::BadReturn(AT), 16),
        (TypeFault::BadAssign(AT), 17),
        (TypeFault::BadBreak(AT), 18),
        (TypeFault::NoMain(AT), 19),
        (TypeFault::Undefined(AT), 20),
        (TypeFault::TooMany(AT), 21),
        (TypeFault::OutOfMemory, 40),
    ]?;
    assert!(rt; are_named(alloc, types)?);
    Ok(())
}

#[test]
fn names_of_a_program(rt: HostRuntime) -> Result<(), AllocError> {
    let alloc = rt.alloc();
    let pieces = vec![in alloc;
        (PieceFault::FunctionTooLarge { at: 0, length: 0 }, 22),
        (
            PieceFault::Unvalidated {
                at: 0,
                length: 0,
                label: 0
            },
            24
        ),
        (PieceFault::OutOfMemory, 40),
    ]?;
    assert!(rt; are_named(alloc, pieces)?);
    let links = vec![in alloc;
        (LinkFault::ImageTooLarge, 25),
        (LinkFault::Missing { function: 0 }, 26),
        (LinkFault::Doubled { function: 0, at: 0 }, 27),
        (LinkFault::Stranger { function: 0, at: 0 }, 28),
        (LinkFault::OutOfMemory, 40),
    ]?;
    assert!(rt; are_named(alloc, links)?);
    let others = vec![in alloc;
        (Fault::UnknownFunction, 59),
        (Fault::OutOfMemory, 40),
        (Fault::Read, 53),
        (Fault::Write, 54),
    ]?;
    assert!(rt; are_named(alloc, others)?);
    Ok(())
}

#[test]
fn names_of_a_library(rt: HostRuntime) -> Result<(), AllocError> {
    let alloc = rt.alloc();
    let library = vec![in alloc;
        (LibraryFault::Exists, 31),
        (LibraryFault::Absent, 32),
        (LibraryFault::Full, 34),
        (LibraryFault::DiskFault, 35),
        (LibraryFault::Closed, 36),
        (LibraryFault::Damaged, 37),
        (LibraryFault::NotALibrary, 38),
        (LibraryFault::OutOfMemory, 40),
    ]?;
    assert!(rt; are_named(alloc, library)?);
    assert!(rt; is_named(alloc, NameFault::BadName, 33)?);
    let book = vec![in alloc;
        (BookFault::Full, 34),
        (BookFault::DiskFault, 35),
        (BookFault::Closed, 36),
        (
            BookFault::Estranged {
                number: 0,
                found: None
            },
            39
        ),
        (BookFault::OutOfMemory, 40),
    ]?;
    assert!(rt; are_named(alloc, book)?);
    let service = vec![in alloc;
        (ServiceFault::TooManyClients, 30),
        (ServiceFault::BadName, 33),
        (ServiceFault::WorkersGone, 41),
        (ServiceFault::ImageTooLarge, 25),
        (ServiceFault::OutOfMemory, 40),
    ]?;
    assert!(rt; are_named(alloc, service)?);
    Ok(())
}

#[test]
fn names_of_a_script(rt: HostRuntime) -> Result<(), AllocError> {
    let alloc = rt.alloc();
    let script = vec![in alloc;
        (ScriptFault::BadLine, 50),
        (ScriptFault::EndOfScript, 51),
        (ScriptFault::ScriptTooLong, 52),
        (ScriptFault::ReadFault, 53),
        (ScriptFault::WriteFault, 54),
        (ScriptFault::Stopped, 61),
    ]?;
    assert!(rt; are_named(alloc, script)?);
    let spool = vec![in alloc;
        (SpoolFault::Interrupted, 55),
        (SpoolFault::FolderFault, 56),
        (SpoolFault::FolderInUse, 57),
        (SpoolFault::NotTaken, 58),
    ]?;
    assert!(rt; are_named(alloc, spool)?);
    Ok(())
}

#[test]
fn numbers_without_a_name(rt: HostRuntime) {
    for number in [0, 8, 9, 10, 23, 29, 42, 49, 62, 1000] {
        assert!(rt; name_of(number).is_empty());
    }
}
