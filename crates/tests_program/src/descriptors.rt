// Which of the descriptors 0 to 2 are taken, and by what, however the program was started.

use cc_descriptors::{Access, KnownDescriptors, Use, Uses, take_free};

const FREE: Use = Use::Free;

const GIVEN: Use = Use::Given;

const READ: Use = Use::StandIn(Access::Reading);

const WRITTEN: Use = Use::StandIn(Access::Writing);

// What the descriptors are used for at the start, and what they are used for afterwards.
fn rows() -> [([Use; 3], [Use; 3]); 8] {
    [
        ([GIVEN, GIVEN, GIVEN], [GIVEN, GIVEN, GIVEN]),
        ([FREE, GIVEN, GIVEN], [WRITTEN, GIVEN, GIVEN]),
        ([GIVEN, FREE, GIVEN], [GIVEN, READ, GIVEN]),
        ([GIVEN, GIVEN, FREE], [GIVEN, GIVEN, READ]),
        ([FREE, FREE, GIVEN], [WRITTEN, READ, GIVEN]),
        ([FREE, GIVEN, FREE], [WRITTEN, GIVEN, READ]),
        ([GIVEN, FREE, FREE], [GIVEN, READ, READ]),
        ([FREE, FREE, FREE], [WRITTEN, READ, READ]),
    ]
}

fn uses(of: [Use; 3]) -> Uses {
    Uses {
        input: of[0],
        output: of[1],
        error: of[2],
    }
}

fn is_right(row: &([Use; 3], [Use; 3])) -> bool {
    let (before, after) = *row;
    let mut system = KnownDescriptors { uses: uses(before) };
    match take_free(&mut system) {
        Ok(_) => system.uses == uses(after),
        Err(_) => false,
    }
}

#[test]
fn closed_descriptors_are_taken(rt: HostRuntime) {
    let rows = rows();
    assert!(rt; rows.iter().all(is_right), "what is taken");
}
