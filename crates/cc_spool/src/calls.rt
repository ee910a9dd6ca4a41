// The file system calls that the spool makes, each on a file named by its place in the folder.
//
// If a call is refused, its caller gets only a number, which can be copied, and not the path.

use crate::entries::Entries;
use crate::found::Found;
use crate::layout::FolderLayout;
use crate::place::Place;
use crate::refusal::{Refusal, known};
use std::alloc::AllocError;
use std::fs::{self, DirBuilder, File, OpenOptions, Permissions, TryLockError};
use std::os::unix::fs::{DirBuilderExt, FileExt, OpenOptionsExt, PermissionsExt};
use std::path::Path;

/// A path, if there is memory for it.
type Along = Result<String, AllocError>;

/// Syncs what was written to a file, or the names in a directory.
pub(crate) fn settle(file: &File) -> Result<(), Refusal> {
    known(file.sync_all())
}

/// Writes these bytes to a file, at this offset.
pub(crate) fn write_at(file: &File, bytes: &[u8], at: u64) -> Result<(), Refusal> {
    known(file.write_all_at(bytes, at))
}

/// Fills the room with the bytes of a file at this offset.
pub(crate) fn read_at(file: &File, room: &mut [u8], at: u64) -> Result<(), Refusal> {
    known(file.read_exact_at(room, at))
}

/// Makes a file this many bytes long.
pub(crate) fn set_length(file: &File, bytes: u64) -> Result<(), Refusal> {
    known(file.set_len(bytes))
}

/// Tries to lock a file. The result is false if somebody else has locked it.
pub(crate) fn take_lock(file: &File) -> Result<bool, Refusal> {
    match file.try_lock() {
        Ok(()) => Ok(true),
        Err(TryLockError::WouldBlock) => Ok(false),
        Err(TryLockError::Error(error)) => Err(Refusal::from(error)),
    }
}

/// Whether somebody has locked a file. To find out, this takes a shared lock, which is released with the file.
pub(crate) fn is_locked(file: &File) -> Result<bool, Refusal> {
    match file.try_lock_shared() {
        Ok(()) => Ok(false),
        Err(TryLockError::WouldBlock) => Ok(true),
        Err(TryLockError::Error(error)) => Err(Refusal::from(error)),
    }
}

/// Sets a file's rights to these, regardless of the process's umask.
pub(crate) fn set_file_rights(file: &File, rights: u32) -> Result<(), Refusal> {
    known(file.set_permissions(Permissions::from_mode(rights)))
}

impl FolderLayout {
    // What is at a path, if something is; a link is not followed.
    fn look_along(&self, path: Along) -> Result<Option<Found>, Refusal> {
        let Ok(path) = path else {
            return Err(Refusal::NoMemory);
        };
        match fs::symlink_metadata(&self.rt, path.as_str()) {
            Ok(told) => Ok(Some(Found::of(&told))),
            Err(error) => match Refusal::from(error) {
                refusal if refusal.is_absent() => Ok(None),
                refusal => Err(refusal),
            },
        }
    }

    fn remove_along(&self, path: Along) -> Result<(), Refusal> {
        let Ok(path) = path else {
            return Err(Refusal::NoMemory);
        };
        known(fs::remove_file(&self.rt, path.as_str()))
    }

    fn remove_directory_along(&self, path: Along) -> Result<(), Refusal> {
        let Ok(path) = path else {
            return Err(Refusal::NoMemory);
        };
        known(fs::remove_dir(&self.rt, path.as_str()))
    }

    fn rename_along(&self, from: Along, to: Along) -> Result<(), Refusal> {
        let (Ok(from), Ok(to)) = (from, to) else {
            return Err(Refusal::NoMemory);
        };
        known(fs::rename(&self.rt, from.as_str(), to.as_str()))
    }

    fn open_along(&self, how: &OpenOptions, path: Along) -> Result<File, Refusal> {
        let Ok(path) = path else {
            return Err(Refusal::NoMemory);
        };
        known(how.open(&self.rt, path.as_str()))
    }

    /// What is at a script's place, if something is; a link is not followed. An `Err` if that is not known.
    pub(crate) fn look(&self, place: Place, name: &str) -> Result<Option<Found>, Refusal> {
        self.look_along(self.path_of(place, name))
    }

    /// Whether it is known that a regular file is there, not a link to one.
    pub(crate) fn is_file(&self, place: Place, name: &str) -> bool {
        match self.look(place, name) {
            Ok(Some(found)) => found.is_file(),
            _ => false,
        }
    }

    /// Whether it is known that nothing is there.
    pub(crate) fn is_free(&self, place: Place, name: &str) -> bool {
        matches!(self.look(place, name), Ok(None))
    }

    /// Opens an existing file for reading.
    pub(crate) fn open(&self, place: Place, name: &str) -> Result<File, Refusal> {
        self.open_along(OpenOptions::new().read(true), self.path_of(place, name))
    }

    /// Opens an existing file for reading and writing.
    pub(crate) fn open_to_write(&self, place: Place, name: &str) -> Result<File, Refusal> {
        let mut how = OpenOptions::new();
        how.read(true).write(true);
        self.open_along(&how, self.path_of(place, name))
    }

    /// Removes a file.
    pub(crate) fn remove(&self, place: Place, name: &str) -> Result<(), Refusal> {
        self.remove_along(self.path_of(place, name))
    }

    /// Removes a claim: a file, or an empty directory that somebody put in its place.
    pub(crate) fn remove_claim(&self, name: &str) -> Result<(), Refusal> {
        match self.remove(Place::Claimed, name) {
            Ok(()) => Ok(()),
            Err(_) => self.remove_directory_along(self.path_of(Place::Claimed, name)),
        }
    }

    /// Moves a script's file to another place, replacing whatever is there.
    pub(crate) fn rename(&self, name: &str, from: Place, to: Place) -> Result<(), Refusal> {
        self.rename_along(self.path_of(from, name), self.path_of(to, name))
    }

    /// Links a script's file to another place as well, under a name that may differ from its present one, unless something has
    /// that name already.
    pub(crate) fn link(
        &self,
        from: Place,
        name: &str,
        to: Place,
        new_name: &str,
    ) -> Result<(), Refusal> {
        let (Ok(from), Ok(to)) = (self.path_of(from, name), self.path_of(to, new_name)) else {
            return Err(Refusal::NoMemory);
        };
        known(fs::hard_link(&self.rt, from.as_str(), to.as_str()))
    }

    /// A new file for writing, with the rights of the folder's files.
    pub(crate) fn make(&self, place: Place, name: &str) -> Result<File, Refusal> {
        let mut how = OpenOptions::new();
        how.write(true).create_new(true).mode(0o600);
        let file = self.open_along(&how, self.path_of(place, name))?;
        match set_file_rights(&file, self.file_rights) {
            Ok(()) => Ok(file),
            Err(refusal) => {
                drop(file);
                let _ = self.remove(place, name);
                Err(refusal)
            }
        }
    }

    /// What is at the path of a part, if something is; a link is not followed. An `Err` if that is not known.
    pub(crate) fn look_at(&self, part: &str) -> Result<Option<Found>, Refusal> {
        self.look_along(self.part(part))
    }

    /// What is at the folder's path: if that is a link, the link itself and not what it leads to.
    pub(crate) fn look_at_name(&self) -> Result<Option<Found>, Refusal> {
        let path = self.path.as_str().trim_end_matches('/');
        let path = if path.is_empty() { "/" } else { path };
        self.look_along(String::from_str(self.alloc, path))
    }

    /// Whether something is at the path of a part. An `Err` if that is not known.
    pub(crate) fn has(&self, part: &str) -> Result<bool, Refusal> {
        match self.look_at(part) {
            Ok(found) => Ok(found.is_some()),
            Err(refusal) => Err(refusal),
        }
    }

    /// Opens a part for reading, even if it is a directory.
    pub(crate) fn open_part(&self, part: &str) -> Result<File, Refusal> {
        self.open_along(OpenOptions::new().read(true), self.part(part))
    }

    /// Opens `lock`, which must exist: no file is made through a link in its place.
    pub(crate) fn open_lock(&self) -> Result<File, Refusal> {
        let mut how = OpenOptions::new();
        how.read(true).write(true);
        self.open_along(&how, self.part("lock"))
    }

    /// Makes a file in the folder itself, if nothing has that name yet, not even a link.
    pub(crate) fn make_part_file(&self, part: &str) -> Result<File, Refusal> {
        let mut how = OpenOptions::new();
        how.write(true).create_new(true).mode(0o600);
        self.open_along(&how, self.part(part))
    }

    /// Syncs the name of the folder.
    pub(crate) fn sync_above(&self) -> Result<(), Refusal> {
        let above = match Path::new(self.path.as_str()).parent() {
            Some(above) if !above.as_str().is_empty() => above.as_str(),
            _ => ".",
        };
        settle(&File::open(&self.rt, above)?)
    }

    /// Removes a part that is a file.
    pub(crate) fn remove_part(&self, part: &str) -> Result<(), Refusal> {
        self.remove_along(self.part(part))
    }

    /// Removes a part that is an empty directory.
    pub(crate) fn remove_directory(&self, part: &str) -> Result<(), Refusal> {
        self.remove_directory_along(self.part(part))
    }

    /// Makes a directory that only the server may use.
    pub(crate) fn make_directory(&self, part: &str) -> Result<(), Refusal> {
        let Ok(path) = self.part(part) else {
            return Err(Refusal::NoMemory);
        };
        let mut how = DirBuilder::new();
        how.mode(0o700);
        known(how.create(&self.rt, path.as_str()))
    }

    /// Makes the folder, and the directories above it, with 0755 if the process's mask allows that.
    pub(crate) fn make_folder(&self) -> Result<(), Refusal> {
        let mut how = DirBuilder::new();
        how.recursive(true).mode(0o755);
        known(how.create(&self.rt, self.path.as_str()))
    }

    /// Gives a part these rights.
    pub(crate) fn set_rights(&self, part: &str, rights: u32) -> Result<(), Refusal> {
        let Ok(path) = self.part(part) else {
            return Err(Refusal::NoMemory);
        };
        let rights = Permissions::from_mode(rights);
        known(fs::set_permissions(&self.rt, path.as_str(), rights))
    }

    /// Renames a part.
    pub(crate) fn rename_part(&self, from: &str, to: &str) -> Result<(), Refusal> {
        self.rename_along(self.part(from), self.part(to))
    }

    /// The entries of a part.
    pub(crate) fn entries(&self, part: &str) -> Result<Entries, Refusal> {
        let Ok(path) = self.part(part) else {
            return Err(Refusal::NoMemory);
        };
        match fs::read_dir(&self.rt, path.as_str()) {
            Ok(entries) => Ok(Entries::new(self.alloc, entries)),
            Err(error) => Err(Refusal::from(error)),
        }
    }
}
