// The folder of a test: what is done to its files, and what is looked at in them.
//
// All of it is a `Deed` at a file's path. So the path is made in one place, and each call of the system is written once. A call that
// is refused gives `false`.

use std::fs::{self, DirEntry, File, OpenOptions, Permissions};
use std::io;
use std::os::unix::fs::{MetadataExt, PermissionsExt, chown, symlink};
use std::time::{Duration, SystemTime};

/// A folder of a test.
#[derive(Clone, Copy, Drop)]
pub struct Folder {
    pub rt: HostRuntime,
    pub path: &'static str,
}

/// What is done at a path, or looked at there.
#[derive(Clone, Copy, Drop)]
pub enum Deed<'a> {
    /// Makes a directory, and what is above it.
    Make,
    /// Removes an empty directory.
    Unmake,
    /// Makes a file with this text.
    Put(&'a str),
    /// Removes a file.
    Remove,
    /// Makes a symbolic link to this.
    Link(&'a str),
    /// Sets the rights of a directory.
    SetRights(u32),
    /// Makes a file this many bytes long.
    SetLength(u64),
    /// Gives a file a time of writing that is a minute from now.
    SetAhead,
    /// Gives a file the time of writing of what was seen.
    SetAsSeen(Seen),
    /// Whether something is there; a link is not followed.
    IsThere,
    IsAbsent,
    /// Whether it has these rights.
    HasRights(u32),
    /// Whether a file has this text.
    HasText(&'a str),
    /// Whether a log has these lines, each after a time and a user.
    HasLog(&'a str),
    /// Whether a directory has this many entries.
    Has(usize),
}

/// What is looked at in a file: its rights, and when it was last written.
#[derive(Clone, Copy, Drop)]
pub struct Seen {
    rights: u32,
    written: SystemTime,
}

fn succeeds(res: io::Result<()>) -> bool {
    res.is_ok()
}

// Whether these are the lines of a log, each after a time and a user.
fn is_log(text: &str, wanted: &str) -> bool {
    let mut lines = wanted.lines();
    for line in text.lines() {
        let mut words = line.splitn(3, ' ');
        let (_, _, said) = (words.next(), words.next(), words.next());
        let wanted = lines.next();
        if wanted.is_none() || said != wanted {
            return false;
        }
    }
    lines.next().is_none()
}

impl Folder {
    // The path of a file in a part of the folder; empty if memory runs out.
    fn path_in(self, part: &str, name: &str) -> String {
        match format!(in self.rt.alloc(); "{}/{part}/{name}", self.path) {
            Ok(path) => path,
            Err(_) => String::new(self.rt.alloc()),
        }
    }

    /// Does this at the path of a file in a part of the folder. The result is whether it succeeds, or whether what is looked at is so.
    pub fn at(self, part: &str, name: &str, deed: Deed) -> bool {
        let path = self.path_in(part, name);
        let is_so = self.is_done(path.as_str(), deed);
        drop(path);
        is_so
    }

    fn is_done(self, path: &str, deed: Deed) -> bool {
        match deed {
            Deed::Make => succeeds(fs::create_dir_all(&self.rt, path)),
            Deed::Unmake => succeeds(fs::remove_dir(&self.rt, path)),
            Deed::Put(text) => succeeds(fs::write(&self.rt, path, text)),
            Deed::Remove => succeeds(fs::remove_file(&self.rt, path)),
            Deed::Link(to) => succeeds(symlink(&self.rt, to, path)),
            Deed::SetRights(rights) => {
                let rights = Permissions::from_mode(rights);
                succeeds(fs::set_permissions(&self.rt, path, rights))
            }
            Deed::SetLength(bytes) => self.set_length(path, bytes),
            Deed::SetAhead => self.set_ahead(path),
            Deed::SetAsSeen(seen) => self.set_time(path, seen.written),
            _ => self.is_seen(path, deed),
        }
    }

    fn is_seen(self, path: &str, deed: Deed) -> bool {
        match deed {
            Deed::IsThere => self.see_at(path).is_some(),
            Deed::IsAbsent => self.see_at(path).is_none(),
            Deed::HasRights(rights) => match self.see_at(path) {
                Some(seen) => seen.rights == rights,
                None => false,
            },
            Deed::HasText(wanted) => self.reads(path, wanted, false),
            Deed::HasLog(wanted) => self.reads(path, wanted, true),
            Deed::Has(wanted) => self.count(path) == wanted,
            _ => false,
        }
    }

    // Whether a file has this text, or a log these lines.
    fn reads(self, path: &str, wanted: &str, is_of_log: bool) -> bool {
        let Ok(found) = fs::read_to_string(&self.rt, path) else {
            return false;
        };
        let is_so = if is_of_log {
            is_log(found.as_str(), wanted)
        } else {
            found.as_str() == wanted
        };
        drop(found);
        is_so
    }

    fn open(self, path: &str) -> Option<File> {
        let mut how = OpenOptions::new();
        how.write(true).open(&self.rt, path).ok()
    }

    fn set_length(self, path: &str, bytes: u64) -> bool {
        match self.open(path) {
            Some(file) => succeeds(file.set_len(bytes)),
            None => false,
        }
    }

    fn set_time(self, path: &str, time: SystemTime) -> bool {
        match self.open(path) {
            Some(file) => succeeds(file.set_modified(time)),
            None => false,
        }
    }

    fn set_ahead(self, path: &str) -> bool {
        let Ok(now) = SystemTime::now(&self.rt) else {
            return false;
        };
        match now.checked_add(Duration::from_secs(60)) {
            Some(time) => self.set_time(path, time),
            None => false,
        }
    }

    fn see_at(self, path: &str) -> Option<Seen> {
        let Ok(told) = fs::symlink_metadata(&self.rt, path) else {
            return None;
        };
        let rights = told.mode() & 0o7777;
        match told.modified() {
            Ok(written) => Some(Seen { rights, written }),
            Err(_) => None,
        }
    }

    /// What is looked at in a file; a link is not followed.
    pub fn see(self, part: &str, name: &str) -> Option<Seen> {
        let path = self.path_in(part, name);
        let seen = self.see_at(path.as_str());
        drop(path);
        seen
    }

    /// Whether a file is there, and was not written since it was looked at.
    pub fn is_as_seen(self, part: &str, name: &str, before: Option<Seen>) -> bool {
        match (before, self.see(part, name)) {
            (Some(before), Some(seen)) => before.written == seen.written,
            _ => false,
        }
    }
    // Notes the name of an entry if it is not that of an answer.
    fn note(self, entry: &DirEntry, script: &mut String) {
        if !entry.file_name().ends_with(".answer")
            && let Ok(name) = String::from_str(self.rt.alloc(), entry.file_name())
        {
            *script = name;
        }
    }

    // How many entries a directory has, and the name of one that is not an answer. For a directory that can't be read, the number is
    // the largest possible.
    fn entries(self, path: &str) -> (usize, String) {
        let mut script = String::new(self.rt.alloc());
        let Ok(entries) = fs::read_dir(&self.rt, path) else {
            return (usize::MAX, script);
        };
        let mut count = 0usize;
        for entry in entries {
            count = count.saturating_add(1);
            if let Ok(entry) = entry {
                self.note(&entry, &mut script);
            }
        }
        (count, script)
    }

    fn count(self, path: &str) -> usize {
        let (count, script) = self.entries(path);
        drop(script);
        count
    }

    /// The name of an entry of a part that is not an answer.
    pub fn script_in(self, part: &str) -> String {
        let path = self.path_in(part, "");
        let (_, script) = self.entries(path.as_str());
        drop(path);
        script
    }

    /// Gives a file a second name.
    pub fn link_hard(self, part: &str, to: &str, name: &str) -> bool {
        let (from, to) = (self.path_in(part, name), self.path_in(to, name));
        succeeds(fs::hard_link(&self.rt, from.as_str(), to.as_str()))
    }

    /// Moves a file to another part, under another name.
    pub fn rename(self, part: &str, name: &str, to: &str, other: &str) -> bool {
        let (from, to) = (self.path_in(part, name), self.path_in(to, other));
        succeeds(fs::rename(&self.rt, from.as_str(), to.as_str()))
    }

    /// Gives the folder to another user; only root is allowed to.
    pub fn give(self, user: u32) -> bool {
        succeeds(chown(&self.rt, self.path, Some(user), None))
    }

    /// Moves the folder to the path of another one.
    pub fn move_to(self, other: Folder) -> bool {
        succeeds(fs::rename(&self.rt, self.path, other.path))
    }

    /// Removes the folder.
    pub fn remove_all(self) -> bool {
        succeeds(fs::remove_dir_all(&self.rt, self.path))
    }
}
