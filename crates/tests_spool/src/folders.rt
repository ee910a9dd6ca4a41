// A spool in a real folder: which things in `new` are scripts, what a start does with what a kill left, and when an answer is
// replaced with 54.

use crate::files::Deed::{
    Has, HasRights, HasText, IsAbsent, IsThere, Link, Make, Put, Remove, SetAhead, SetLength,
    SetRights, Unmake,
};
use crate::files::Folder;
use crate::helpers::{
    End, Meanwhile, answer, answer_one, ends_so, is_answered, must, put_as_written, put_plain,
    renumber_one, second,
};
use crate::steps::Step::{
    Answer, At, Begin, Clears, Counts, Deliver, Done, Entries, HasFailed, IsAsSeen, IsAwaited,
    IsLong, IsOver, IsRefused, IsSoonAwaited, IsStopped, LinkHard, Recovers, See, Wait,
};
use crate::steps::{Client, Row, Step, begin_again, end, run, run_alone};
use cc_spool::{FolderLayout, FolderSpool, Spool};
use std::io::{self, Read, Write};
use std::process::Abort;
use std::thread;
use std::time::{Duration, Instant};

// A file to which nothing was written may be large.
static PUT_THINGS: [Row; 11] = [
    (PLAIN, "plain"),
    (At("new", "Empty-1_2", Put("")), "an empty file"),
    (At("new", "large", Put("")), "a file"),
    (At("new", "large", SetLength(16_777_217)), "a large file"),
    (At("new", LONGEST, Put("")), "a name of 64 bytes"),
    (At("new", TOO_LONG, Put("")), "a name of 65 bytes"),
    (At("new", ".hidden", Put("")), "a hidden file"),
    (At("new", "plain.answer", Put("")), "a name with a dot"),
    (At("new", "two words", Put("")), "a name with a space"),
    (At("new", "link", Link("/etc/hostname")), "a link"),
    (At("new", "directory", Make), "a directory"),
];

const LONGEST: &str = "a234567890b234567890c234567890d234567890e234567890f2345678901234";

const TOO_LONG: &str = "a234567890b234567890c234567890d234567890e234567890f23456789012345";

// A script is put into `new`.
const PLAIN: Step = At("new", "plain", Put("list\n"));

// The scripts are answered, and the other things are untouched.
static FOUR_SCRIPTS: [Row; 25] = [
    (Done(4), "four are scripts"),
    (Counts(4, 0), "four are answered"),
    (At("done", "plain", IsThere), "plain is answered"),
    (At("new", "plain", IsAbsent), "plain is gone"),
    (
        At("done", "Empty-1_2", IsThere),
        "the empty file is answered",
    ),
    (At("new", "Empty-1_2", IsAbsent), "the empty file is gone"),
    (At("done", "large", IsThere), "the large file is answered"),
    (At("new", "large", IsAbsent), "the large file is gone"),
    (
        At("done", LONGEST, IsThere),
        "the name of 64 bytes is answered",
    ),
    (At("new", LONGEST, IsAbsent), "the name of 64 bytes is gone"),
    (
        At("done", TOO_LONG, IsAbsent),
        "the name of 65 bytes has no answer",
    ),
    (At("new", TOO_LONG, IsThere), "the name of 65 bytes stays"),
    (
        At("done", ".hidden", IsAbsent),
        "the hidden file has no answer",
    ),
    (At("new", ".hidden", IsThere), "the hidden file stays"),
    (
        At("done", "plain.answer", IsAbsent),
        "the name with a dot has no answer",
    ),
    (
        At("new", "plain.answer", IsThere),
        "the name with a dot stays",
    ),
    (
        At("done", "two words", IsAbsent),
        "the name with a space has no answer",
    ),
    (
        At("new", "two words", IsThere),
        "the name with a space stays",
    ),
    (At("done", "link", IsAbsent), "the link has no answer"),
    (At("new", "link", IsThere), "the link stays"),
    (
        At("done", "directory", IsAbsent),
        "the directory has no answer",
    ),
    (At("new", "directory", IsThere), "the directory stays"),
    (IsOver(false), "it goes on"),
    (At(".", "stop", Put("")), "a stop"),
    (IsOver(true), "it is stopped"),
];

#[test]
fn which_things_are_scripts(rt: HostRuntime) {
    let path = "which_things_are_scripts.spool";
    let mut server = Folder { rt, path }.server(&rt, 100);
    server.runs(&rt, &PUT_THINGS);
    server.runs(&rt, &FOUR_SCRIPTS);
    end(&rt, server);
}

// The states of `cur` that a kill leaves: a script `NAME` there was claimed, and `NAME.answer` is its answer, as far as it was
// written. Then what the next start hands over.
static LEFT: [Row; 21] = [
    (At("cur", "not-claimed.answer", Put("")), "not claimed"),
    (At("cur", "begun", Put("list\n")), "begun"),
    (At("cur", "begun.answer", Put("")), "begun, answer"),
    (At("cur", "in-a-line", Put("list\n")), "in a line"),
    (
        At("cur", "in-a-line.answer", Put("ok 1\nok")),
        "in a line, answer",
    ),
    (At("cur", "reported", Put("list\n")), "reported"),
    (
        At("cur", "reported.answer", Put(REPORTED)),
        "reported, answer",
    ),
    (At("cur", "unwritten", Put("list\n")), "unwritten"),
    (
        At(
            "cur",
            "unwritten.answer",
            Put("fault 54 WriteFault\nnit a\nok 2\n"),
        ),
        "unwritten, answer",
    ),
    (
        At("cur", "out-of-order.answer", Put("ok 1\n")),
        "out of order",
    ),
    (At("cur", "handed-over", Put("list\n")), "handed over"),
    (Recovers(5, 0, 0), "five were begun"),
    (
        At("done", "not-claimed", IsAbsent),
        "no answer to what was not claimed",
    ),
    (
        At("done", "begun", HasText("fault 55 Interrupted\n")),
        "begun, done",
    ),
    (
        At("done", "in-a-line", HasText(REPORTED)),
        "in a line, done",
    ),
    (At("done", "reported", HasText(REPORTED)), "reported, done"),
    (
        At("done", "unwritten", HasText("fault 54 WriteFault\n")),
        "unwritten, done",
    ),
    (
        At("done", "out-of-order", HasText(REPORTED)),
        "out of order, done",
    ),
    (At("done", "handed-over", IsAbsent), "no second answer"),
    (At("cur", "", Has(0)), "nothing is left"),
    (Counts(0, 0), "the client has none of them"),
];

const REPORTED: &str = "ok 1\nfault 55 Interrupted\n";

#[test]
fn what_a_kill_left(rt: HostRuntime) {
    let path = "what_a_kill_left.spool";
    run(&rt, Folder { rt, path }, 100, &LEFT);
}

// A second client of the server made the empty file before the first client removed the claim of the script that it had answered.
static EMPTY: [Row; 6] = [
    (At("cur", "begun.answer", Put("")), "an empty file"),
    (At("cur", "begun", Put("list\n")), "a claim"),
    (At("done", "begun", Put("ok 1\n")), "an answer"),
    (Recovers(0, 0, 0), "none was begun"),
    (At("done", "begun", HasText("ok 1\n")), "it stays"),
    (At("cur", "", Has(0)), "nothing is left"),
];

#[test]
fn an_empty_file_beside_an_answer(rt: HostRuntime) {
    let path = "an_empty_file_beside_an_answer.spool";
    run(&rt, Folder { rt, path }, 100, &EMPTY);
}

static DIRECTORIES: [Row; 4] = [
    (At("cur", "empty", Make), "an empty one"),
    (At("cur", "full/of", Make), "one that is not empty"),
    (
        Recovers(0, 0, 1),
        "none is a script, and one can't be taken away",
    ),
    (At("cur", "empty", IsAbsent), "the other is gone"),
];

#[test]
fn directories_in_the_place_of_scripts(rt: HostRuntime) {
    let path = "directories_in_the_place_of_scripts.spool";
    run(&rt, Folder { rt, path }, 100, &DIRECTORIES);
}

static STOP: [Row; 2] = [(At(".", "stop", Put("")), "a stop"), (Wait(20), "a moment")];

static OLD_STOP: [Row; 3] = [
    (IsStopped(false), "it was for an earlier server"),
    (At(".", "stop", Put("")), "another stop"),
    (At(".", "stop", SetAhead), "of a later moment"),
];

static NEW_STOP: [Row; 1] = [(IsStopped(true), "it is for this one")];

#[test]
fn a_stop_of_before_the_start(rt: HostRuntime) {
    let path = "a_stop_of_before_the_start.spool";
    let mut server = Folder { rt, path }.server(&rt, 100);
    server.runs(&rt, &STOP);
    let mut server = begin_again(&rt, server);
    server.runs(&rt, &OLD_STOP);
    let mut server = begin_again(&rt, server);
    server.runs(&rt, &NEW_STOP);
    end(&rt, server);
}

// Three scripts that were begun, and whose answers can't be moved to `done`. Three looks find nothing to do, and do not hand over what
// is kept, nor do three later ones. An answer that is whole is not written again. The three answers go together.
static BARRED_THREE: [Row; 32] = [
    (At("cur", "begun", Put("list\n")), "begun"),
    (At("cur", "begun.answer", Put("")), "begun, answer"),
    (At("done", "begun", Make), "begun, bar"),
    (At("cur", "in-a-line", Put("list\n")), "in a line"),
    (
        At("cur", "in-a-line.answer", Put("ok 1\nok")),
        "in a line, answer",
    ),
    (At("done", "in-a-line", Make), "in a line, bar"),
    (At("cur", "reported", Put("list\n")), "reported"),
    (
        At("cur", "reported.answer", Put(REPORTED)),
        "reported, answer",
    ),
    (At("done", "reported", Make), "reported, bar"),
    (Recovers(0, 3, 0), "three are kept"),
    (Done(0), "no script is done"),
    (Done(0), "nor at the second look"),
    (Done(0), "nor at the third one"),
    (Counts(0, 3), "none is handed over"),
    (See("cur", "in-a-line.answer"), "an answer that is whole"),
    (Wait(20), "a moment"),
    (Done(0), "nor at the fourth look"),
    (Done(0), "nor at the fifth one"),
    (Done(0), "nor at the sixth one"),
    (Counts(0, 3), "none is handed over later"),
    (
        IsAsSeen("cur", "in-a-line.answer"),
        "it is not written again",
    ),
    (At("done", "begun", Unmake), "begun, no bar"),
    (At("done", "in-a-line", Unmake), "in a line, no bar"),
    (At("done", "reported", Unmake), "reported, no bar"),
    (Done(0), "still no script is done"),
    (Counts(3, 0), "three are handed over"),
    (
        At("done", "begun", HasText("fault 55 Interrupted\n")),
        "begun, done",
    ),
    (
        At("done", "in-a-line", HasText(REPORTED)),
        "in a line, done",
    ),
    (At("done", "reported", HasText(REPORTED)), "reported, done"),
    (
        At("cur", "begun.answer", IsAbsent),
        "begun, no answer in `cur`",
    ),
    (
        At("cur", "in-a-line.answer", IsAbsent),
        "in a line, no answer in `cur`",
    ),
    (
        At("cur", "reported.answer", IsAbsent),
        "reported, none either",
    ),
];

#[test]
fn what_a_start_could_not_hand_over(rt: HostRuntime) {
    let path = "what_a_start_could_not_hand_over.spool";
    run(&rt, Folder { rt, path }, 100, &BARRED_THREE);
}

static BOTH: [Row; 5] = [
    (PLAIN, "a script"),
    (LinkHard("new", "cur", "plain"), "a claim"),
    (Recovers(0, 0, 0), "a start"),
    (At("new", "", Has(0)), "`new` is empty"),
    (At("cur", "", Has(0)), "`cur` is empty"),
];

#[test]
fn a_script_under_both_names(rt: HostRuntime) {
    let path = "a_script_under_both_names.spool";
    run(&rt, Folder { rt, path }, 100, &BOTH);
}

static OVER_LIMIT: [Row; 4] = [
    (PLAIN, "a script"),
    (
        Answer("", Meanwhile::Filled),
        "a byte over the limit is refused",
    ),
    (
        At("done", "plain", HasText("fault 54 WriteFault\n")),
        "the answer gives way",
    ),
    (IsOver(true), "it took all that it may"),
];

#[test]
fn an_answer_over_its_limit(rt: HostRuntime) {
    let path = "an_answer_over_its_limit.spool";
    run(&rt, Folder { rt, path }, 1, &OVER_LIMIT);
}

static NO_NEW: [Row; 1] = [(At("new", "", Has(0)), "`new` is empty")];

// Whether a script that no server takes is taken back.
fn is_not_taken(folder: Folder, layout: &FolderLayout) -> bool {
    ends_so(folder, layout, &mut io::sink(), Some(1), End::NotTaken, "")
}

static NO_SCRIPT: [Row; 2] = [
    (At("new", "", Has(0)), "`new` is empty"),
    (At("tmp", "", Has(0)), "`tmp` is empty"),
];

#[test]
fn a_script_that_nobody_takes(rt: HostRuntime) {
    let path = "a_script_that_nobody_takes.spool";
    let folder = Folder { rt, path };
    let mut server = folder.server(&rt, 1);
    must(
        &rt,
        is_not_taken(folder, &server.layout),
        "it is taken back",
    );
    server.runs(&rt, &NO_SCRIPT);
    end(&rt, server);
}

// A server that answers once its client says that it is waiting.
#[derive(Drop)]
struct Answering {
    folder: Folder,
    spool: FolderSpool,
    text: &'static str,
}

impl Write for Answering {
    fn write(&mut self, bytes: &[u8]) -> io::Result<usize> {
        let _ = answer(self.folder, &mut self.spool, self.text, Meanwhile::Nothing);
        Ok(bytes.len())
    }

    fn flush(&mut self) -> io::Result<()> {
        Ok(())
    }
}

// Whether a script is answered by the server that claims it.
fn is_served(folder: Folder, layout: &FolderLayout) -> bool {
    let end = End::Answered(None);
    ends_so(folder, layout, &mut io::sink(), Some(1), end, "ok 1\n")
}

// A script that is read slowly. Meanwhile somebody puts a script of their own into `new` under the name that the slow one has in
// `tmp`, and a server answers that script.
#[derive(Drop)]
struct Watched {
    folder: Folder,
    spool: FolderSpool,
    // The script's text.
    text: &'static [u8],
    is_forged: bool,
}

impl Watched {
    // Puts the forged script there, and has it answered. The result is whether that succeeds.
    fn forge(&mut self) -> bool {
        put_as_written(self.folder)
            && answer_one(self.folder, &mut self.spool, "ok 1\n", Meanwhile::Nothing)
    }
}

impl Read for Watched {
    fn read(&mut self, room: &mut [u8]) -> io::Result<usize> {
        if !self.is_forged {
            self.is_forged = self.forge();
        }
        self.text.read(room)
    }
}

static OTHER_STAYS: [Row; 1] = [(At("done", "", Has(1)), "that of the other one stays")];

#[test]
fn a_name_that_was_seen_in_tmp(rt: HostRuntime) {
    let path = "a_name_that_was_seen_in_tmp.spool";
    let folder = Folder { rt, path };
    let mut server = folder.server(&rt, 1);
    let mut script = Watched {
        folder,
        spool: second(&server.layout, 1).expect(&rt, "a client"),
        text: b"list\n",
        is_forged: false,
    };
    let mut answering = Answering {
        folder,
        spool: second(&server.layout, 1).expect(&rt, "another client"),
        text: "unit a\nok 2\n",
    };
    let text = answering.text;
    let is_right = is_answered(folder, &server.layout, &mut script, &mut answering, text);
    must(&rt, script.is_forged, "the other script is answered");
    must(&rt, is_right, "its answer is not taken for this one's");
    drop(script);
    drop(answering);
    server.runs(&rt, &OTHER_STAYS);
    end(&rt, server);
}

static OTHER_WAITS: [Row; 2] = [
    (At("new", "", Has(1)), "the other one waits"),
    (At("done", "", Has(0)), "`done` is empty"),
];

#[test]
fn another_script_in_the_place_of_a_claimed_one(rt: HostRuntime) {
    let path = "another_script_in_the_place_of_a_claimed_one.spool";
    let folder = Folder { rt, path };
    let mut server = folder.server(&rt, 1);
    let mut other = server.second(&rt, 1);
    let (layout, spool) = (&server.layout, &mut other.spool);
    let (is_right, is_done) = thread::join(
        &rt,
        || is_served(folder, layout),
        || answer_one(folder, spool, "ok 1\n", Meanwhile::Replaced),
    );
    drop(other);
    must(&rt, is_done, "it is claimed");
    // The client waited for its own answer, and left the other one where it is.
    must(&rt, is_right, "it is answered");
    server.runs(&rt, &OTHER_WAITS);
    end(&rt, server);
}

#[test]
fn a_script_that_has_another_number(rt: HostRuntime) {
    let path = "a_script_that_has_another_number.spool";
    let folder = Folder { rt, path };
    let mut server = folder.server(&rt, 1);
    let layout = &server.layout;
    let (is_right, is_done) = thread::join(
        &rt,
        || is_not_taken(folder, layout),
        || renumber_one(folder),
    );
    must(&rt, is_done, "it has another number");
    // The file is recognised as the script that was left, and is taken back.
    must(&rt, is_right, "it is taken back");
    server.runs(&rt, &NO_NEW);
    end(&rt, server);
}

// An answer, and the number of the fault that it reports last, if it reports one.
static ANSWERS: [(&str, Option<u32>); 6] = [
    ("", None),
    ("ok 1\nfault 11 Unknown at 4:5\n", Some(11)),
    ("fault 50 BadLine\nok 2\n", Some(50)),
    ("fault 50 BadLine\nok 1\nfault 55 Interrupted\n", Some(55)),
    ("unit fault\n fault 5\nfaults 6\nfault\n", None),
    ("fault 4294967296 Large", Some(4_294_967_295)),
];

// Whether this number is reported for an answer, which is passed on as it is and then removed.
fn tells(folder: Folder, layout: &FolderLayout, text: &'static str, number: Option<u32>) -> bool {
    let Some(spool) = second(layout, 1) else {
        return false;
    };
    let mut server = Answering {
        folder,
        spool,
        text,
    };
    let end = End::Answered(number);
    let is_so = ends_so(folder, layout, &mut server, None, end, text);
    drop(server);
    is_so && folder.at("done", "", Has(0))
}

#[test]
fn which_fault_an_answer_tells(rt: HostRuntime) {
    let path = "which_fault_an_answer_tells.spool";
    let folder = Folder { rt, path };
    let server = folder.server(&rt, 1);
    for (text, number) in &ANSWERS {
        must(&rt, tells(folder, &server.layout, text, *number), text);
    }
    end(&rt, server);
}

static NO_ENTRIES: [Row; 1] = [(Entries(10, 0), "none at first")];

static TEN_ENTRIES: [Row; 2] = [
    (Entries(100, 10), "ten, whatever they are"),
    (Entries(9, 9), "as many as are asked for"),
];

#[test]
fn how_many_entries(rt: HostRuntime) {
    let path = "how_many_entries.spool";
    let mut server = Folder { rt, path }.server(&rt, 100);
    server.runs(&rt, &NO_ENTRIES);
    server.runs(&rt, &PUT_THINGS);
    server.runs(&rt, &TEN_ENTRIES);
    end(&rt, server);
}

// Makes as many directories as the number of names that a client keeps.
fn fill_with_directories(folder: Folder) -> bool {
    for number in 1000..2024 {
        match format!(in folder.rt.alloc(); "0-{number}") {
            Ok(name) if folder.at("new", name.as_str(), Make) => {}
            _ => return false,
        }
    }
    true
}

// There are as many names as a client tries in one go, and none of them can be claimed. They are passed over then. A change within
// the grain of the clock is seen when the client looks later.
static HIDDEN: [Row; 6] = [
    (PLAIN, "a script"),
    (Done(0), "none of the first"),
    (Done(1), "the one after them"),
    (At("new", "1", Put("")), "another one after them"),
    (Wait(200), "a moment"),
    (Done(1), "it is the first"),
];

#[test]
fn names_that_hide_no_script(rt: HostRuntime) {
    let path = "names_that_hide_no_script.spool";
    let folder = Folder { rt, path };
    let mut server = folder.server(&rt, 100);
    must(&rt, fill_with_directories(folder), "directories");
    server.runs(&rt, &HIDDEN);
    end(&rt, server);
}

static BEGUN: [Row; 5] = [
    (PLAIN, "a script"),
    (Begin, "the script"),
    (At("new", "second", Put("")), "one more"),
    (IsLong(true), "it has no time"),
    (IsAwaited(false), "the other client is free"),
];

static BEGUN_TOO: [Row; 1] = [(Begin, "that one")];

// Both clients are busy. A directory can't be claimed, so nobody waits for a script.
static AWAITED: [Row; 6] = [
    (IsAwaited(false), "nothing waits"),
    (At("new", "a-directory", Make), "a directory"),
    (IsAwaited(false), "still nothing waits"),
    (At("new", "third", Put("")), "a third one"),
    (IsSoonAwaited, "that waits for one"),
    (IsAwaited(true), "which stays so"),
];

static ONE_IS_ENOUGH: [Row; 1] = [(IsAwaited(false), "one is enough")];

static ENDED: [Row; 1] = [(Deliver(Some(61)), "its end")];

static FREE: [Row; 1] = [(IsAwaited(false), "now one client is free")];

static THIRD: [Row; 1] = [(Begin, "the third one")];

static STOPPED_TOO: [Row; 4] = [
    (IsAwaited(false), "nothing waits"),
    (At(".", "stop", Put("")), "a stop"),
    (IsAwaited(true), "the end of the server waits"),
    (Deliver(None), "the end of that one"),
];

static ALL_ANSWERED: [Row; 2] = [
    (Deliver(None), "the end of the third one"),
    (At("done", "", Has(3)), "all are answered"),
];

#[test]
fn when_others_wait_for_a_script(rt: HostRuntime) {
    let path = "when_others_wait_for_a_script.spool";
    let mut server = Folder { rt, path }.server_for(&rt, 2, 0);
    let mut other = server.second(&rt, 100);
    server.runs(&rt, &BEGUN);
    other.runs(&rt, &BEGUN_TOO);
    server.runs(&rt, &AWAITED);
    other.runs(&rt, &ONE_IS_ENOUGH);
    server.runs(&rt, &ENDED);
    other.runs(&rt, &FREE);
    server.runs(&rt, &THIRD);
    other.runs(&rt, &STOPPED_TOO);
    server.runs(&rt, &ALL_ANSWERED);
    drop(other);
    end(&rt, server);
}

static IN_TIME: [Row; 5] = [
    (PLAIN, "a script"),
    (IsLong(false), "there is none"),
    (Begin, "the script"),
    (IsLong(false), "it has an hour"),
    (Deliver(None), "its answer"),
];

#[test]
fn a_script_that_has_its_time(rt: HostRuntime) {
    let path = "a_script_that_has_its_time.spool";
    let mut server = Folder { rt, path }.server_for(&rt, 1, 3600);
    server.runs(&rt, &IN_TIME);
    end(&rt, server);
}

static FOLDER: [Row; 1] = [(At("", "", Make), "a folder")];

static FOREIGN: [Row; 3] = [
    (IsRefused, "it is another user's"),
    (At(".", "lock", IsAbsent), "no lock is made"),
    (At("", "", Has(0)), "nor anything else"),
];

#[test]
fn a_folder_of_another_user(rt: HostRuntime) {
    let path = "a_folder_of_another_user.spool";
    let folder = Folder { rt, path };
    folder.runs(&rt, &FOLDER);
    // Only root can give the folder away.
    if folder.give(1) {
        folder.runs(&rt, &FOREIGN);
    }
    must(&rt, folder.remove_all(), "its end");
}

static NO_SPOOL: [Row; 5] = [
    (At("tmp", "", Make), "a folder"),
    (At("tmp", "notes", Put("text")), "a file"),
    (IsRefused, "it is no spool"),
    (At("tmp", "notes", IsThere), "the file is there"),
    (At(".", "lock", IsAbsent), "no lock is made"),
];

#[test]
fn a_folder_that_is_no_spool(rt: HostRuntime) {
    let path = "a_folder_that_is_no_spool";
    run_alone(&rt, Folder { rt, path }, &NO_SPOOL);
}

static EVERYBODYS: [Row; 4] = [
    (At("", "", Make), "a directory"),
    (At("", "", SetRights(0o1777)), "everybody's"),
    (IsRefused, "it is refused"),
    (At(".", "lock", IsAbsent), "no lock is made"),
];

#[test]
fn a_folder_that_everybody_may_write_to(rt: HostRuntime) {
    let path = "a_folder_that_everybody_may_write_to.spool";
    run_alone(&rt, Folder { rt, path }, &EVERYBODYS);
}

// What a folder has before it is cleared, and what is still there after that.
static CLEARED: [Row; 19] = [
    (At("tmp", "old", Put("text")), "old"),
    (At("tmp", ".hidden", Put("text")), ".hidden"),
    (At("tmp", "notes.txt", Put("text")), "notes.txt"),
    (At("tmp", "link", Link("/etc/hostname")), "link"),
    // A script that waits, and one that was claimed.
    (At("new", "waits", Put("text")), "waits"),
    (At("cur", "claimed", Put("text")), "claimed"),
    // The files with which a start that was killed tried whether it could write to these parts.
    (At("new", ".try-1", Put("text")), ".try-1"),
    (At("cur", ".try-2", Put("text")), ".try-2"),
    (Wait(1100), "a second"),
    (Clears(1, 0), "none is a day old"),
    (Clears(0, 3), "three are taken away"),
    (At("tmp", "old", IsAbsent), "old, afterwards"),
    (At("tmp", ".hidden", IsThere), ".hidden, afterwards"),
    (At("tmp", "notes.txt", IsThere), "notes.txt, afterwards"),
    (At("tmp", "link", IsThere), "link, afterwards"),
    (At("new", "waits", IsThere), "waits, afterwards"),
    (At("cur", "claimed", IsThere), "claimed, afterwards"),
    (At("new", ".try-1", IsAbsent), ".try-1, afterwards"),
    (At("cur", ".try-2", IsAbsent), ".try-2, afterwards"),
];

#[test]
fn what_is_cleared(rt: HostRuntime) {
    let path = "what_is_cleared.spool";
    run(&rt, Folder { rt, path }, 100, &CLEARED);
}

static LINKED: [Row; 5] = [
    (At("victim", "", Make), "a directory"),
    (At("victim", "", SetRights(0o700)), "its rights"),
    (At(".", ".making-new", Link("victim")), "a link"),
    (IsRefused, "it is refused"),
    (At(".", "victim", HasRights(0o700)), "the same rights"),
];

#[test]
fn a_link_in_the_place_of_a_part(rt: HostRuntime) {
    let path = "a_link_in_the_place_of_a_part.spool";
    run_alone(&rt, Folder { rt, path }, &LINKED);
}

// Whether a spool whose folder was moved finds nothing, and another client of that folder goes on unless the folder counts as
// lost.
fn goes_on(client: &mut Client, busy: &mut Client) -> bool {
    !client.spool.is_over()
        && answer(client.folder, &mut client.spool, "", Meanwhile::Nothing).is_none()
        && (client.spool.has_failed() || !busy.spool.is_over())
}

// How many seconds a client goes on whose folder was moved.
fn lasts(rt: &impl Abort, client: &mut Client, busy: &mut Client) -> u64 {
    let clock = client.folder.rt;
    let began = Instant::now(&clock).expect(rt, "the time");
    for _ in 0..1000 {
        must(rt, goes_on(client, busy), "it goes on");
        if client.spool.has_failed() {
            break;
        }
    }
    began.elapsed(&clock).expect(rt, "the time").as_secs()
}

static LOST: [Row; 2] = [(IsOver(true), "it is over"), (HasFailed, "it is lost")];

static STILL_WAITS: [Row; 1] = [(At("new", "plain", IsThere), "the script waits")];

#[test]
fn a_folder_that_was_moved(rt: HostRuntime) {
    let path = "a_folder_that_was_moved.spool";
    let folder = Folder { rt, path };
    let path = "a_folder_that_was_moved.old";
    let moved = Folder { rt, path };
    let mut server = folder.server(&rt, 100);
    // There are two clients; `busy` takes no script meanwhile.
    let mut busy = server.second(&rt, 100);
    must(&rt, folder.move_to(moved), "it is moved");
    let mut other = folder.server(&rt, 100);
    must(&rt, put_plain(folder), "a script");
    let seconds = lasts(&rt, &mut server.client, &mut busy);
    must(&rt, 6 <= seconds, "six seconds long");
    server.runs(&rt, &LOST);
    // This client would be the only one to go on, and is over too.
    busy.runs(&rt, &LOST);
    other.runs(&rt, &STILL_WAITS);
    end(&rt, other);
    drop(busy);
    drop(server);
    must(&rt, moved.remove_all(), "the end of the moved one");
}

static BARRED: [Row; 8] = [
    (At("done", "plain", Make), "a bar"),
    (PLAIN, "a script"),
    (Done(1), "it is done"),
    (Counts(0, 1), "its answer is kept"),
    (At("done", "plain", Unmake), "the bar is gone"),
    (Done(0), "none is done"),
    (Counts(1, 0), "the answer is handed over"),
    (At("done", "plain", HasText("ok\n")), "as it was"),
];

#[test]
fn an_answer_whose_way_is_barred(rt: HostRuntime) {
    let path = "an_answer_whose_way_is_barred.spool";
    run(&rt, Folder { rt, path }, 100, &BARRED);
}

static MOVED: [Row; 5] = [
    (PLAIN, "a script"),
    (Answer("ok\n", Meanwhile::Moved), "its answer is moved"),
    (Counts(1, 0), "it is handed over"),
    (At("done", "plain", HasText("ok\n")), "as it was"),
    (At("cur", "", Has(0)), "`cur` is empty"),
];

#[test]
fn an_answer_that_was_moved_unseen(rt: HostRuntime) {
    let path = "an_answer_that_was_moved_unseen.spool";
    run(&rt, Folder { rt, path }, 1, &MOVED);
}

// The second script waits until the answer to the first one is removed. Its name is passed over for a second.
static TWICE: [Row; 7] = [
    (PLAIN, "a script"),
    (Done(1), "it is done"),
    (PLAIN, "a second one"),
    (Done(0), "it waits"),
    (At("done", "plain", Remove), "the way is free"),
    (Wait(1100), "a second"),
    (Done(1), "it is done too"),
];

#[test]
fn a_second_script_of_a_name(rt: HostRuntime) {
    let path = "a_second_script_of_a_name.spool";
    run(&rt, Folder { rt, path }, 100, &TWICE);
}

// The rights of the parts of a folder, if all may leave scripts.
static RIGHTS: [Row; 5] = [
    (At(".", "cur", HasRights(0o700)), "cur"),
    (At(".", "done", HasRights(0o755)), "done"),
    (At(".", "new", HasRights(0o3777)), "new"),
    (At(".", "tmp", HasRights(0o3777)), "tmp"),
    (At(".", "lock", HasRights(0o644)), "lock"),
];

static GROUP: [Row; 2] = [
    (At("", "", Make), "a directory"),
    (At("", "", SetRights(0o2750)), "a group's"),
];

// The same if a group may.
static GROUP_RIGHTS: [Row; 5] = [
    (At(".", "cur", HasRights(0o2700)), "cur of a group"),
    (At(".", "done", HasRights(0o2770)), "done of a group"),
    (At(".", "new", HasRights(0o2770)), "new of a group"),
    (At(".", "tmp", HasRights(0o2770)), "tmp of a group"),
    (At(".", "lock", HasRights(0o660)), "lock of a group"),
];

#[test]
fn the_rights_of_a_folder(rt: HostRuntime) {
    let path = "the_rights_of_a_folder.spool";
    let folder = Folder { rt, path };
    run(&rt, folder, 100, &RIGHTS);
    folder.runs(&rt, &GROUP);
    run(&rt, folder, 100, &GROUP_RIGHTS);
}
