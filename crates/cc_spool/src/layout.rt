// The parts of a spool's folder.
//
//     tmp     scripts that clients are writing
//     new     scripts that wait, under names that are plain
//     cur     scripts that were claimed, and the answers that are being written; the server's own
//     done    answers, each under its script's name
//     lock    held by the server
//     stop    asks the server to end
//
// Clients write to `tmp` and `new`, so anything may be there: each entry is looked at without following a link before it is
// opened, or not opened at all.

use crate::board::Board;
use crate::calls::{is_locked, settle, take_lock};
use crate::found::Found;
use crate::keeping::{Keeping, Limits};
use crate::log::Log;
use crate::place::Place;
use crate::refusal::Refusal;
use std::alloc::{AllocError, Global};
use std::fs::{File, Permissions};
use std::os::unix::fs::PermissionsExt;
use std::sync::atomic::{AtomicBool, AtomicU64, Ordering};
use std::sync::{Arc, Mutex};
use std::time::Duration;
use std::{io, thread};

/// Rights of scripts, answers and `lock`: everybody reads, or the group reads and writes.
const OPEN_FILE: u32 = 0o644;

const GROUP_FILE: u32 = 0o660;

/// How many times a server tries to get the lock, and the pause between two tries, in milliseconds: one second in total.
const LOCK_TRIES: u64 = 100;

const LOCK_PAUSE: u64 = 10;

/// The limits of a client, which clears nothing.
const ALL: Limits = Limits {
    days: u32::MAX,
    bytes: u64::MAX,
    is_quiet: true,
    patience: u32::MAX,
    clients: usize::MAX,
};

/// A spool's folder.
pub struct FolderLayout {
    pub(crate) rt: HostRuntime,
    pub(crate) alloc: Global,
    pub(crate) path: String,
    // The rights of files that are made in it.
    pub(crate) file_rights: u32,
    // The file `lock`, if this server holds it.
    held: Option<Found>,
    // What all clients of one server know about the folder.
    pub(crate) common: Arc<Common>,
}

// Written by hand, so that crates that use this one rely on this proof and need not prove again how each part is dropped.
impl Drop for FolderLayout {
    fn drop(self) {
        let FolderLayout {
            rt,
            alloc,
            path,
            file_rights,
            held,
            common,
        } = self;
    }
}

/// What all clients of one server know about its folder. A client that finds the board or the log taken does not wait for it.
#[derive(Drop)]
pub(crate) struct Common {
    pub(crate) board: Mutex<Board>,
    pub(crate) keeping: Mutex<Keeping>,
    pub(crate) log: Mutex<Log>,
    // How many bytes the answers in `done` take, by the current count.
    taken: AtomicU64,
    // How many scripts were begun, and how many clients are running one.
    begun: AtomicU64,
    busy: AtomicU64,
    // How many clients have a number, and the number of the client that is to end its script for a waiting script, or 0.
    numbered: AtomicU64,
    leaving: AtomicU64,
    // How many clients there are, and how many seconds one may run a script while others wait.
    clients: u64,
    patience: u64,
    // Whether the answers in `done` that may not be removed yet take more room than allowed. Until they are counted, this is true.
    is_full: AtomicBool,
    // Whether the folder could not be used for a while.
    is_lost: AtomicBool,
}

/// The lock of a folder, held while this value exists.
pub struct Held {
    file: File,
}

// Written by hand, as that of `FolderLayout`.
impl Drop for Held {
    fn drop(self) {
        let Held { file } = self;
    }
}

impl FolderLayout {
    /// The folder at this path, whether or not it is there, as a client sees it. If others may not write to its `new`, the folder is
    /// a group's.
    pub fn new(rt: HostRuntime, alloc: Global, path: &str) -> Result<FolderLayout, AllocError> {
        FolderLayout::for_server(rt, alloc, path, ALL)
    }

    /// The folder at this path, as a server with these limits sees it.
    pub fn for_server(
        rt: HostRuntime,
        alloc: Global,
        path: &str,
        limits: Limits,
    ) -> Result<FolderLayout, AllocError> {
        let mut layout = FolderLayout {
            rt,
            alloc,
            path: String::from_str(alloc, path)?,
            file_rights: OPEN_FILE,
            held: None,
            common: Arc::new(
                alloc,
                Common {
                    board: Mutex::new(Board::new(alloc)),
                    keeping: Mutex::new(Keeping::new(limits)),
                    log: Mutex::new(Log::new()),
                    taken: AtomicU64::new(0),
                    begun: AtomicU64::new(0),
                    busy: AtomicU64::new(0),
                    numbered: AtomicU64::new(0),
                    leaving: AtomicU64::new(0),
                    clients: limits.clients as u64,
                    patience: u64::from(limits.patience),
                    is_full: AtomicBool::new(true),
                    is_lost: AtomicBool::new(false),
                },
            )?,
        };
        layout.look_for_rights();
        Ok(layout)
    }

    /// The same folder, looked at again.
    pub fn again(&self) -> Result<FolderLayout, AllocError> {
        let mut layout = FolderLayout {
            rt: self.rt,
            alloc: self.alloc,
            path: String::from_str(self.alloc, self.path.as_str())?,
            file_rights: OPEN_FILE,
            held: self.held,
            common: Arc::try_clone(&self.common)?,
        };
        layout.look_for_rights();
        Ok(layout)
    }

    /// Finds out which rights files get in the folder: if others may not write to `new`, the folder is a group's.
    pub(crate) fn look_for_rights(&mut self) {
        self.file_rights = match self.look_at("new") {
            Ok(Some(found)) if found.rights() & 0o002 == 0 => GROUP_FILE,
            _ => OPEN_FILE,
        };
    }

    /// Whether the folder is a group's.
    pub(crate) fn is_group(&self) -> bool {
        self.file_rights == GROUP_FILE
    }

    /// Takes the folder for this server, until the returned lock is released. None if another server held it for a whole second.
    pub(crate) fn lock(&self) -> Result<Option<Held>, Refusal> {
        let file = match self.look_at("lock")? {
            Some(found) if !found.is_file() => return Err(Refusal::NoLock),
            Some(_) => self.open_lock()?,
            // Another server may have made the file just now.
            None => match self.make_part_file("lock") {
                Ok(file) => file,
                Err(_) => self.open_lock()?,
            },
        };
        for _ in 0..LOCK_TRIES {
            if take_lock(&file)? {
                return Ok(Some(Held { file }));
            }
            thread::sleep(&self.rt, Duration::from_millis(LOCK_PAUSE));
        }
        Ok(None)
    }

    /// Remembers which file the held lock is.
    pub(crate) fn hold(&mut self, held: &Held) -> Result<(), Refusal> {
        self.held = Some(Found::of_file(&held.file)?);
        Ok(())
    }

    /// An `Err` if the folder is not the one whose lock is held, or can't be looked at.
    pub(crate) fn must_be_held(&self) -> Result<(), Refusal> {
        let Some(held) = self.held else {
            return Ok(());
        };
        match self.look_at("lock")? {
            Some(found) if found.is_same(&held) => Ok(()),
            _ => Err(Refusal::NotHeld),
        }
    }

    /// Whether a server holds the folder. To find out, this takes a shared lock, which is released at once.
    pub(crate) fn is_held(&self) -> Result<bool, Refusal> {
        match self.look_at("lock") {
            Ok(Some(found)) if found.is_file() => {
                let file = self.open_part("lock")?;
                is_locked(&file)
            }
            _ => Ok(false),
        }
    }

    /// Whether the folder could not be used for a while.
    pub(crate) fn is_lost(&self) -> bool {
        self.common.is_lost.load(Ordering::SeqCst)
    }

    /// Notes, for all clients of this folder, that it could not be used for a while.
    pub(crate) fn give_up(&self) {
        self.common.is_lost.store(true, Ordering::SeqCst);
    }

    /// How many bytes the answers in `done` take, by the current count.
    pub(crate) fn taken(&self) -> u64 {
        self.common.taken.load(Ordering::SeqCst)
    }

    /// Notes that an answer that takes this many bytes was handed over.
    pub(crate) fn note_taken(&self, bytes: u64) {
        self.common.taken.fetch_add(bytes, Ordering::SeqCst);
    }

    /// Notes how many bytes the answers in `done` take.
    pub(crate) fn set_taken(&self, bytes: u64) {
        self.common.taken.store(bytes, Ordering::SeqCst);
    }

    /// Whether the answers in `done` that may not be removed yet take more room than allowed.
    pub(crate) fn is_full(&self) -> bool {
        self.common.is_full.load(Ordering::SeqCst)
    }

    /// Notes whether the answers in `done` that may not be removed yet take more room than allowed.
    pub(crate) fn set_full(&self, is_full: bool) {
        self.common.is_full.store(is_full, Ordering::SeqCst);
    }

    /// How many scripts the clients of this server have begun.
    pub(crate) fn begun(&self) -> u64 {
        self.common.begun.load(Ordering::SeqCst)
    }

    /// Notes that a client began a script.
    pub(crate) fn note_begun(&self) {
        self.common.begun.fetch_add(1, Ordering::SeqCst);
        self.common.busy.fetch_add(1, Ordering::SeqCst);
    }

    /// Notes that a client has ended a script that it began.
    pub(crate) fn note_ended(&self, client: u64) {
        self.common.busy.fetch_sub(1, Ordering::SeqCst);
        if self.is_leaving(client) {
            self.common.leaving.store(0, Ordering::SeqCst);
        }
    }

    /// A number that no other client has, from 1 on.
    pub(crate) fn number(&self) -> u64 {
        let before = self.common.numbered.fetch_add(1, Ordering::SeqCst);
        before.saturating_add(1)
    }

    /// Whether this client is to end its script for a waiting script.
    pub(crate) fn is_leaving(&self, client: u64) -> bool {
        self.common.leaving.load(Ordering::SeqCst) == client
    }

    /// Whether no client is to end its script for a waiting script.
    pub(crate) fn is_none_leaving(&self) -> bool {
        self.common.leaving.load(Ordering::SeqCst) == 0
    }

    /// Notes that a client is to end its script for a waiting script. The caller has the board, so only one client at a time is
    /// noted.
    pub(crate) fn leave(&self, client: u64) {
        self.common.leaving.store(client, Ordering::SeqCst);
    }

    /// Whether every client is running a script.
    pub(crate) fn are_all_busy(&self) -> bool {
        self.common.clients <= self.common.busy.load(Ordering::SeqCst)
    }

    /// How many seconds a script may run while others wait.
    pub(crate) fn patience(&self) -> u64 {
        self.common.patience
    }

    /// Whether the server is asked to end.
    pub fn is_stopped(&self) -> bool {
        match self.look_at("stop") {
            Ok(found) => found.is_some(),
            Err(_) => false,
        }
    }

    /// Withdraws the request for the server to end. An `Err` if `stop` can't be removed, or the folder is no longer the one that
    /// is held.
    pub fn unstop(&self) -> io::Result<()> {
        Ok(self.take_stop_back()?)
    }

    fn take_stop_back(&self) -> Result<(), Refusal> {
        self.must_be_held()?;
        match self.remove_part("stop") {
            Err(refusal) if !refusal.is_absent() => Err(refusal),
            _ => Ok(()),
        }
    }

    /// Withdraws a request for an earlier server to end: a `stop` that was made before this start made the file `begun`. A `stop`
    /// that was made later is for this server.
    pub(crate) fn take_old_stop_back(&self, begun: &Found) -> Result<(), Refusal> {
        match self.look_at("stop")? {
            Some(found) if found.is_older(begun) => self.take_stop_back(),
            _ => Ok(()),
        }
    }

    /// Syncs the names in a part.
    pub(crate) fn sync_part(&self, part: &str) -> Result<(), Refusal> {
        let part = self.open_part(part)?;
        settle(&part)
    }

    /// Syncs the names of the claimed scripts, and of the answers that are being written.
    pub(crate) fn sync_claims(&self) -> Result<(), Refusal> {
        self.sync_part("cur")
    }

    /// Moves a script that is whole from `tmp` to `new`, under another name, if nothing has that name.
    pub(crate) fn publish(&self, written: &str, name: &str) -> Result<(), Refusal> {
        if let Err(refusal) = self.link(Place::Written, written, Place::Waiting, name)
            && !self.is_published(written, name)
        {
            return Err(refusal);
        }
        // Otherwise a power cut could lose a script that waits. If the sync is refused, the script waits all the same.
        let _ = self.sync_part("new");
        // If the old name stays, the file has two: the new one counts.
        let _ = self.remove(Place::Written, written);
        Ok(())
    }

    // Whether a script is in `new` though the call that put it there was refused: over a network, a call may succeed although its
    // reply is lost. If its name there is gone by then, the file has its second name in `cur`: a server has claimed it.
    fn is_published(&self, written: &str, name: &str) -> bool {
        match (
            self.look(Place::Written, written),
            self.look(Place::Waiting, name),
        ) {
            (Ok(Some(here)), Ok(Some(there))) => here.is_alike(&there),
            (Ok(Some(here)), Ok(None)) => here.links == 2,
            _ => false,
        }
    }

    /// The path of a part.
    pub(crate) fn part(&self, part: &str) -> Result<String, AllocError> {
        let path = self.path.as_str();
        format!(in self.alloc; "{path}/{part}")
    }

    /// The path of a script's file.
    pub(crate) fn path_of(&self, place: Place, name: &str) -> Result<String, AllocError> {
        let (path, part, ending) = (self.path.as_str(), place.part(), place.ending());
        format!(in self.alloc; "{path}/{part}/{name}{ending}")
    }

    /// The user who owns `cur`, which is the server's user. An `Err` if the folder is gone, or can't be looked at.
    pub(crate) fn server(&self) -> Result<u32, Refusal> {
        match self.look_at("cur")? {
            Some(found) => Ok(found.user),
            None => Err(Refusal::NoFolder),
        }
    }

    /// Whether what was found is a regular file of the user who owns `cur`: then the server made it.
    pub(crate) fn is_servers(&self, found: &Found) -> Result<bool, Refusal> {
        let server = self.server()?;
        Ok(found.is_file() && found.user == server)
    }
}

impl Held {
    /// Gives `lock` the rights of the folder's files. A `lock` that belongs to another user keeps its rights.
    pub(crate) fn open_to_clients(&self, rights: u32) {
        let _ = self.file.set_permissions(Permissions::from_mode(rights));
    }
}
