// What the log of a folder says, and that it says it later if it can't be written.

use crate::files::Deed::{HasLog, HasRights, HasText, Make, Put, Unmake};
use crate::files::Folder;
use crate::helpers::must;
use crate::steps::Step::{At, NoScript, Refused, Script};
use crate::steps::{Client, Row, Step, begin_again, end, run};
use std::process::Abort;

// A case: a script, its answer, and what the log says about it.
#[derive(Clone, Copy, Drop)]
struct Case {
    script: &'static str,
    answer: &'static str,
    said: &'static str,
}

static CASES: [Case; 9] = [
    // Lines with sources that look like lines. The last one was not answered.
    Case {
        script: "add a 16\nint main(void){}\nadd b 5\nlist\n\nlist\nrun a 5\nlist\n",
        answer: "ok 1\nfault 5 Unexpected at 1:1\nunit a\nok 3\n7\nexited 0\n",
        said: "add a 16 ok\nadd b 5 fault 5\nlist ok\nrun a 5 exited\n",
    },
    Case {
        script: "source a\nupdate a 1 4\nx\nrun \ncall a 9 3\n1 2\nimage a\n",
        answer: "source 5\nok 1\n\nfault 60 Changed\ntrapped\n:020000040001F9\n:00000001FF\n",
        said: "source a source\nupdate a 1 4 fault 60\ncall a 9 3 trapped\nimage a image\n",
    },
    // Only four lines that changed nothing are there.
    Case {
        script: "list\nspace\nlist\nwithdraw a\nlist\naudit\ncompact\nwithdraw a\nlist\n",
        answer: "ok 1\nspace 4096 9 9 0\nok\nok 2\nok 3\nok 4\nok\nok\nfault 32 Absent\nok 5\n",
        said: "list ok\nspace ok\nlist ok\nwithdraw a ok\nlist ok\ncompact ok\n3 lines left out\n",
    },
    // No line is there that is no command.
    Case {
        script: "hel\u{1}lo\n17 lines left out\nwithdraw a\nadd c 2\nxyz\nadd b 5\n",
        answer: "fault 50 BadLine\nfault 50 BadLine\nok 1\nfault 50 BadLine\nfault 35 DiskFault\n",
        said: "withdraw a ok\nadd b 5 fault 35\n3 lines left out\n",
    },
    // A control byte in a name.
    Case {
        script: "run a\u{7f} 5\n",
        answer: "fault 33 BadName\n",
        said: "run a? 5 fault 33\n",
    },
    // The last line has no newline.
    Case {
        script: "list\nwithdraw a",
        answer: "ok 1\nok 2\n",
        said: "list ok\nwithdraw a ok\n",
    },
    // No input words come after a line that is no command.
    Case {
        script: "call a 9999999999 13\nwithdraw two\nlist\n",
        answer: "fault 50 BadLine\nok 1\nok 2\n",
        said: "withdraw two ok\nlist ok\n1 lines left out\n",
    },
    Case {
        script: "add  15\nwithdraw three\nlist\n",
        answer: "fault 50 BadLine\nok 1\nok 2\n",
        said: "withdraw three ok\nlist ok\n1 lines left out\n",
    },
    // Of this line, 129 bytes long, the first 128 would be a command.
    Case {
        script: "replace zzzzzzzzzzzzzzzzzzzzzzzzzzzzzzzzzzzzzzzzzzzzzzzzzzzzzzzzzzzzzzzzzzzzzzzzzzzzzzzzzzzzzzzzzzzzzzzzzzzzzzzzzzzzzzzzzzzzz 140\nwithdraw a\nlist\n",
        answer: "fault 50 BadLine\nok 1\nok 2\n",
        said: "withdraw a ok\nlist ok\n1 lines left out\n",
    },
];

// Whether a script is logged as it should be by a new server.
fn is_logged(rt: &impl Abort, folder: Folder, case: &Case) -> bool {
    let mut server = folder.server(rt, 9);
    let is_done = server.client.is_done(case.script, case.answer);
    drop(server);
    is_done && folder.at(".", "log", HasLog(case.said))
}

// The result is the first case that is not logged as it should be.
fn wrong_case(rt: &impl Abort, folder: Folder) -> Option<usize> {
    for (number, case) in CASES.iter().enumerate() {
        if !is_logged(rt, folder, case) {
            return Some(number);
        }
    }
    None
}

#[test]
fn what_is_said_about_a_script(rt: HostRuntime) {
    let path = "what_is_said_about_a_script.spool";
    let wrong = wrong_case(&rt, Folder { rt, path });
    assert_eq!(rt; wrong, None);
}

static FIRST_TWO: [Row; 4] = [
    (Script("withdraw a\n", "ok 1\n"), "a script"),
    (At(".", "log", HasLog("withdraw a ok\n")), "what was done"),
    (At(".", "log", HasRights(0o640)), "its rights"),
    (Script("compact\n", "ok\n"), "a second one"),
];

static THIRD: [Row; 3] = [
    (Script("list\n", "ok 1\n"), "a third one"),
    (At(".", "log", HasLog("list ok\n")), "a new file"),
    (
        At(".", "log.1", HasLog("withdraw a ok\ncompact ok\n")),
        "and the old one",
    ),
];

// Each server begins a new file.
#[test]
fn who_did_what(rt: HostRuntime) {
    let path = "who_did_what.spool";
    let mut server = Folder { rt, path }.server(&rt, 9);
    server.runs(&rt, &FIRST_TWO);
    let mut server = begin_again(&rt, server);
    server.runs(&rt, &THIRD);
    end(&rt, server);
}

// All files of a log. A directory has the place of the oldest, so that no server can begin a new file.
static BLOCK: [Row; 17] = [
    (At(".", "log", Put("")), "a log"),
    (At("log.16", "full", Make), "a directory"),
    (At(".", "log.1", Put("log.1")), "log.1"),
    (At(".", "log.2", Put("log.2")), "log.2"),
    (At(".", "log.3", Put("log.3")), "log.3"),
    (At(".", "log.4", Put("log.4")), "log.4"),
    (At(".", "log.5", Put("log.5")), "log.5"),
    (At(".", "log.6", Put("log.6")), "log.6"),
    (At(".", "log.7", Put("log.7")), "log.7"),
    (At(".", "log.8", Put("log.8")), "log.8"),
    (At(".", "log.9", Put("log.9")), "log.9"),
    (At(".", "log.10", Put("log.10")), "log.10"),
    (At(".", "log.11", Put("log.11")), "log.11"),
    (At(".", "log.12", Put("log.12")), "log.12"),
    (At(".", "log.13", Put("log.13")), "log.13"),
    (At(".", "log.14", Put("log.14")), "log.14"),
    (At(".", "log.15", Put("log.15")), "log.15"),
];

static BLOCKED: [Row; 9] = [
    (Script("withdraw a\n", "ok 1\n"), "a script"),
    (NoScript, "no further one"),
    (At(".", "log", HasText("")), "nothing is written"),
    (At(".", "log.1", HasText("log.1")), "no file is moved"),
    // Now a file can be begun.
    (At("log.16", "full", Unmake), "the directory is empty"),
    (At(".", "log.16", Unmake), "it is taken away"),
    (Script("withdraw b\n", "ok 2\n"), "a second script"),
    (
        At(".", "log", HasLog("withdraw a ok\nwithdraw b ok\n")),
        "both are there",
    ),
    (At(".", "log.16", HasText("log.15")), "the oldest file"),
];

// What could not be written is written with the next script, and each old file is still there.
#[test]
fn a_log_that_cannot_be_written_for_a_while(rt: HostRuntime) {
    let path = "a_log_that_cannot_be_written_for_a_while.spool";
    let mut server = Folder { rt, path }.server(&rt, 9);
    server.runs(&rt, &BLOCK);
    server.runs(&rt, &BLOCKED);
    end(&rt, server);
}

// Appends this text many times. The result is whether there is memory for it.
fn repeat(text: &mut String, part: &str) -> bool {
    for _ in 0..20_000 {
        if text.push_str(part).is_err() {
            return false;
        }
    }
    true
}

// Answers a script that withdraws a unit 20,000 times. The result is whether that succeeds.
fn is_many_done(client: &mut Client) -> bool {
    let alloc = client.folder.rt.alloc();
    let mut script = String::new(alloc);
    let mut answer = String::new(alloc);
    let is_made = repeat(&mut script, "withdraw a2345678901234567890123456789012\n")
        && repeat(&mut answer, "ok\n");
    let is_done = is_made && client.is_done(script.as_str(), answer.as_str());
    drop(script);
    drop(answer);
    is_done
}

// Whether the log has 20,000 changes, a line about two that are missing, and one more change.
fn has_many(folder: Folder) -> bool {
    let mut said = String::new(folder.rt.alloc());
    let is_made = repeat(&mut said, "withdraw a2345678901234567890123456789012 ok\n")
        && said.push_str("2 lines missing\nwithdraw c ok\n").is_ok();
    let has_log = is_made && folder.at(".", "log", HasLog(said.as_str()));
    drop(said);
    has_log
}

static TWO_MORE: [Row; 5] = [
    (Script("withdraw b\nlist\n", "ok\nok\n"), "two lines"),
    // Now a file can be begun.
    (At("log.16", "full", Unmake), "the directory is empty"),
    (At(".", "log.16", Unmake), "it is taken away"),
    (NoScript, "no further script"),
    (Script("withdraw c\n", "ok\n"), "one more"),
];

// Of the text that can't be written, 1 MiB is kept; after that, lines are counted.
#[test]
fn a_log_that_cannot_be_written_for_long(rt: HostRuntime) {
    let path = "a_log_that_cannot_be_written_for_long.spool";
    let folder = Folder { rt, path };
    let mut server = folder.server(&rt, 9);
    server.runs(&rt, &BLOCK);
    must(&rt, is_many_done(&mut server.client), "20,000 changes");
    server.runs(&rt, &TWO_MORE);
    must(&rt, has_many(folder), "all but two lines");
    end(&rt, server);
}

static CUT_OFF: [Row; 3] = [
    (
        At(
            "new",
            "one",
            Put("replace a 16\nint main(void){}\nrun a 5\nlist\n"),
        ),
        "a script",
    ),
    (Refused("ok 1\n"), "its answer"),
    (
        At(".", "log", HasLog("replace a 16 ok\nrun a 5 fault 54\n")),
        "what was done",
    ),
];

// The line whose answer is refused has 54.
#[test]
fn a_line_whose_answer_is_refused(rt: HostRuntime) {
    let path = "a_line_whose_answer_is_refused.spool";
    run(&rt, Folder { rt, path }, 9, &CUT_OFF);
}
