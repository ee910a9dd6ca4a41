// What command lines ask for that no answer shows: how many threads work, how long answers are kept, and how much room there is. What can be seen
// from outside is in tests/rows (`words`, `watched_words`, `submitted`).

use cc_command_line::{Server, Session, Work, line};
use cc_task::Kind;
use std::alloc::Global;
use std::test::Fail;
use tests_texts::verdict::each_passes;

type Kept = (
    &'static [&'static str],
    &'static str,
    Option<u32>,
    bool,
    usize,
    u64,
);

// Command lines of `library` with the path, the room, whether a file that is there is kept, the number of workers, and for how long it is tried.
static LIBRARIES: [Kept; 5] = [
    (
        &["cclib", "library", "units.disk"],
        "units.disk",
        None,
        false,
        2,
        3,
    ),
    (
        &[
            "cclib",
            "library",
            "--workers",
            "8",
            "a",
            "--format",
            "1073741824",
        ],
        "a",
        Some(1_073_741_824),
        false,
        8,
        3,
    ),
    (
        &["cclib", "library", "a", "--format=64", "--workers=1"],
        "a",
        Some(64),
        false,
        1,
        3,
    ),
    (
        &["cclib", "library", "a", "--if-new", "--format", "64"],
        "a",
        Some(64),
        true,
        2,
        3,
    ),
    (
        &["cclib", "library", "a", "--wait", "86400"],
        "a",
        None,
        false,
        2,
        86_400,
    ),
];

fn asks_for_library(alloc: Global, row: &Kept) -> Result<bool, Fail> {
    let (words, path, wanted, is_kept, count, tries) = *row;
    match line(alloc, words) {
        Ok(
            Work::Library(
                Session {
                    disk,
                    area,
                    is_if_new,
                    workers,
                    is_strict,
                    kind: Kind::Plain,
                    wait,
                },
            ),
        ) => Ok(
            disk.as_str() == path
                && area == wanted
                && is_if_new == is_kept
                && workers == count
                && wait == tries
                && !is_strict,
        ),
        other => {
            drop(other);
            Ok(false)
        }
    }
}

#[test]
fn libraries(rt: HostRuntime) -> Result<(), Fail> {
    each_passes(rt.alloc(), LIBRARIES.as_slice(), asks_for_library)
}

// What a command line asks a server to do, for the file `a.disk` and the folder `spool`.
#[derive(Clone, Copy)]
struct Asked {
    words: &'static [&'static str],
    area: Option<u32>,
    workers: usize,
    clients: usize,
    keep: u32,
    done: u64,
    patience: u32,
    wait: u64,
}

static SERVERS: [Asked; 3] = [
    Asked {
        words: &["cclib", "serve", "a.disk", "spool"],
        area: None,
        workers: 2,
        clients: 4,
        keep: 7,
        done: 1_073_741_824,
        patience: 600,
        wait: 3,
    },
    Asked {
        words: &[
            "cclib",
            "serve",
            "--format",
            "1073741824",
            "a.disk",
            "--workers=8",
            "spool",
            "--clients",
            "64",
            "--keep",
            "3650",
            "--done",
            "1099511627776",
            "--patience=86400",
            "--wait=86400",
        ],
        area: Some(1_073_741_824),
        workers: 8,
        clients: 64,
        keep: 3650,
        done: 1_099_511_627_776,
        patience: 86_400,
        wait: 86_400,
    },
    Asked {
        words: &[
            "cclib",
            "serve",
            "a.disk",
            "spool",
            "--format=64",
            "--workers=1",
            "--clients=1",
            "--keep=1",
            "--done=1048576",
            "--patience=1",
            "--wait=0",
        ],
        area: Some(64),
        workers: 1,
        clients: 1,
        keep: 1,
        done: 1_048_576,
        patience: 1,
        wait: 0,
    },
];

fn asks_for_server(alloc: Global, asked: &Asked) -> bool {
    match line(alloc, asked.words) {
        Ok(
            Work::Serve(
                Server {
                    disk,
                    folder,
                    area,
                    workers,
                    kind: Kind::Plain,
                    clients,
                    keep,
                    done,
                    patience,
                    wait,
                },
            ),
        ) => {
            disk.as_str() == "a.disk"
                && folder.as_str() == "spool"
                && area == asked.area
                && workers == asked.workers
                && clients == asked.clients
                && keep == asked.keep
                && done == asked.done
                && patience == asked.patience
                && wait == asked.wait
        }
        other => {
            drop(other);
            false
        }
    }
}

#[test]
fn servers(rt: HostRuntime) {
    for asked in SERVERS.iter() {
        assert!(rt; asks_for_server(rt.alloc(), asked));
    }
}
