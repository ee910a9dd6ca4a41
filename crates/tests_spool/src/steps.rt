// Tests as rows of steps.
//
// Most tests do one thing after another with a server in a folder, and each thing has to succeed. Such a test is a list of steps, which
// is run in a single place: each call that a test makes itself is proved with all that the test has at that moment.

use crate::files::{Deed, Folder, Seen};
use crate::helpers::{
    Meanwhile, answer, answer_read, begun, clears, counts, done, is_soon_awaited, must, second,
};
use cc_spool::{
    AnswerFile, FolderLayout, FolderSpool, Held, Recovered, ScriptFile, Spool, recover,
};
use std::process::Abort;
use std::thread;
use std::time::Duration;

/// What is done, or what has to be so.
#[derive(Clone, Copy, Drop)]
pub enum Step {
    /// Does this at the path of a file in a part of the folder.
    At(&'static str, &'static str, Deed<'static>),
    /// Waits for this many milliseconds.
    Wait(u64),
    /// Gives a file a second name in another part: the part that it is in, the other one, and its name.
    LinkHard(&'static str, &'static str, &'static str),
    /// Whether a server refuses the folder.
    IsRefused,

    // Of a client of the server.
    /// Answers the scripts that wait, which are this many.
    Done(usize),
    /// Answers one script with this text, while something else is done.
    Answer(&'static str, Meanwhile),
    /// Leaves a script with this text, and answers it with that one.
    Script(&'static str, &'static str),
    /// Begins to answer a script with this text; the rest of the answer is refused.
    Refused(&'static str),
    /// Whether no script comes.
    NoScript,
    /// Takes a script, once it comes.
    Begin,
    /// Ends the script that was taken; the number is that of the fault that ended it.
    Deliver(Option<u32>),
    /// Whether it handed this many answers over, and keeps this many.
    Counts(u64, usize),
    IsOver(bool),
    /// Whether it is over because the folder could not be used.
    HasFailed,
    IsLong(bool),
    IsAwaited(bool),
    /// Whether others wait for its script soon.
    IsSoonAwaited,
    /// Looks at a file.
    See(&'static str, &'static str),
    /// Whether a file was not written since it was looked at.
    IsAsSeen(&'static str, &'static str),

    // Of the server.
    /// Whether a start answers this many scripts, keeps this many, and can't remove this many claims. The client takes over those
    /// that are kept.
    Recovers(u64, usize, u64),
    /// Whether this many entries are counted, up to a limit.
    Entries(usize, usize),
    /// Whether this many files are removed that are older than a number of days.
    Clears(u32, u64),
    IsStopped(bool),
}

/// A step, and what it is called if it fails.
pub type Row = (Step, &'static str);

/// A client of a server, the script that it has taken, and the file that was looked at.
#[derive(Drop)]
pub struct Client {
    pub folder: Folder,
    pub spool: FolderSpool,
    job: Option<(ScriptFile, AnswerFile)>,
    seen: Option<Seen>,
}

/// A server in a folder, with one client.
#[derive(Drop)]
pub struct Server {
    pub client: Client,
    pub layout: FolderLayout,
    held: Held,
}

impl Folder {
    fn does(self, step: &Step) -> bool {
        match step {
            Step::At(part, name, deed) => self.at(part, name, *deed),
            Step::Wait(milliseconds) => {
                thread::sleep(&self.rt, Duration::from_millis(*milliseconds));
                true
            }
            Step::LinkHard(part, to, name) => self.link_hard(part, to, name),
            Step::IsRefused => self.is_refused(),
            _ => false,
        }
    }

    /// Ends the test unless each of these steps succeeds.
    pub fn runs(self, rt: &impl Abort, rows: &[Row]) {
        for (step, what) in rows {
            must(rt, self.does(step), what);
        }
    }

    // A server in the folder, whose client takes at most `most` scripts; `None` if the folder is refused.
    fn server_of(self, taken: Option<(FolderLayout, Held)>, most: u64) -> Option<Server> {
        let (layout, held) = taken?;
        match client_of(self, &layout, most) {
            Some(client) => Some(Server {
                client,
                layout,
                held,
            }),
            None => {
                drop(layout);
                drop(held);
                None
            }
        }
    }

    /// A server in the folder, whose client takes at most `most` scripts.
    pub fn server(self, rt: &impl Abort, most: u64) -> Server {
        self.server_of(self.take(), most).expect(rt, "a server")
    }

    /// As `server`, for this many clients. Each may do a script for this many seconds while others wait.
    pub fn server_for(self, rt: &impl Abort, clients: usize, patience: u32) -> Server {
        let taken = self.take_to_serve(clients, patience);
        self.server_of(taken, 100).expect(rt, "a server")
    }
}

// A client that takes at most `most` scripts; `None` if memory runs out.
fn client_of(folder: Folder, layout: &FolderLayout, most: u64) -> Option<Client> {
    match second(layout, most) {
        Some(spool) => Some(Client {
            folder,
            spool,
            job: None,
            seen: None,
        }),
        None => None,
    }
}

impl Client {
    /// Leaves a script, and answers it. The result is whether that succeeds.
    pub fn is_done(&mut self, script: &str, text: &str) -> bool {
        self.folder.at("new", "one", Deed::Put(script))
            && answer_read(self.folder, &mut self.spool, text, false)
            && self.folder.at("done", "one", Deed::Remove)
    }

    fn see(&mut self, part: &str, name: &str) -> bool {
        self.seen = self.folder.see(part, name);
        self.seen.is_some()
    }

    fn begin(&mut self) -> bool {
        self.job = begun(&mut self.spool);
        self.job.is_some()
    }

    fn deliver(&mut self, fault: Option<u32>) -> bool {
        match self.job.take() {
            Some((script, answer)) => {
                self.spool.deliver(script, answer, fault);
                true
            }
            None => false,
        }
    }

    fn is_so(&mut self, step: &Step) -> bool {
        match step {
            Step::NoScript => self.spool.next().is_none(),
            Step::Counts(answered, kept) => {
                self.spool.answered() == *answered && self.spool.kept() == *kept
            }
            Step::IsOver(is_over) => self.spool.is_over() == *is_over,
            Step::HasFailed => self.spool.has_failed(),
            Step::IsLong(is_long) => self.spool.is_long() == *is_long,
            Step::IsAwaited(is_awaited) => self.spool.is_awaited() == *is_awaited,
            Step::IsSoonAwaited => is_soon_awaited(self.folder, &self.spool),
            _ => self.folder.does(step),
        }
    }

    fn does(&mut self, step: &Step) -> bool {
        let folder = self.folder;
        match step {
            Step::Done(wanted) => done(folder, &mut self.spool) == *wanted,
            Step::Answer(text, meanwhile) => {
                answer(folder, &mut self.spool, text, *meanwhile).unwrap_or(false)
            }
            Step::Script(script, text) => self.is_done(script, text),
            Step::Refused(text) => answer_read(folder, &mut self.spool, text, true),
            Step::Begin => self.begin(),
            Step::Deliver(fault) => self.deliver(*fault),
            Step::See(part, name) => self.see(part, name),
            Step::IsAsSeen(part, name) => folder.is_as_seen(part, name, self.seen),
            _ => self.is_so(step),
        }
    }

    /// Ends the test unless each of these steps succeeds.
    pub fn runs(&mut self, rt: &impl Abort, rows: &[Row]) {
        for (step, what) in rows {
            must(rt, self.does(step), what);
        }
    }
}

impl Server {
    // Looks at what an earlier server left. The client takes over what could not be answered.
    fn recovers(&mut self, wanted: u64, are_kept: usize, are_stuck: u64) -> bool {
        let Ok(Recovered { begun, kept, stuck }) = recover(&self.layout) else {
            return false;
        };
        let is_so = begun == wanted && kept.len() == are_kept && stuck == are_stuck;
        self.client.spool.keep(kept);
        is_so
    }

    fn does(&mut self, step: &Step) -> bool {
        match step {
            Step::Recovers(begun, kept, stuck) => self.recovers(*begun, *kept, *stuck),
            Step::Entries(most, wanted) => counts(&self.layout, *most, *wanted),
            Step::Clears(days, wanted) => clears(&self.layout, *days, *wanted),
            Step::IsStopped(is_stopped) => self.layout.is_stopped() == *is_stopped,
            _ => self.client.does(step),
        }
    }

    /// Ends the test unless each of these steps succeeds.
    pub fn runs(&mut self, rt: &impl Abort, rows: &[Row]) {
        for (step, what) in rows {
            must(rt, self.does(step), what);
        }
    }

    /// A further client.
    pub fn second(&self, rt: &impl Abort, most: u64) -> Client {
        client_of(self.client.folder, &self.layout, most).expect(rt, "another client")
    }
}

/// Ends a server, and begins another one in its folder.
pub fn begin_again(rt: &impl Abort, server: Server) -> Server {
    let folder = server.client.folder;
    drop(server);
    folder.server(rt, 100)
}

/// Ends a server, and removes its folder.
pub fn end(rt: &impl Abort, server: Server) {
    let folder = server.client.folder;
    drop(server);
    must(rt, folder.remove_all(), "its end");
}

/// Runs these steps in a new folder, with a server whose client takes at most `most` scripts.
pub fn run(rt: &impl Abort, folder: Folder, most: u64, rows: &[Row]) {
    let mut server = folder.server(rt, most);
    server.runs(rt, rows);
    end(rt, server);
}

/// Runs these steps in a folder without a server, and removes it.
pub fn run_alone(rt: &impl Abort, folder: Folder, rows: &[Row]) {
    folder.runs(rt, rows);
    must(rt, folder.remove_all(), "its end");
}
