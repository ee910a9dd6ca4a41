// The system's files, and the disk on one.

ghost use Rattle.std.specs.Prelude.{true, false, ◌≡◌, [], ⊤, IfOk};
ghost use Rattle.std.proofs.lemmas.Bool.{false≢true};

use crate::calls::FileCalls;
use crate::disk::DiskFault;
use crate::over::{self, DiskOver};
use std::fs::{self, OpenOptions, Permissions, TryLockError};
use std::io::{self, Seek, SeekFrom};
use std::os::unix::fs::{FileExt, FileTypeExt, OpenOptionsExt, PermissionsExt};
use std::path::Path;
use thiserror::Error;

/// The access rights of a new file: for its owner only.
const OWN: u32 = 0o600;

/// A file of the operating system, or a block device. Each call is one system call.
///
/// Its kind is not honest, because no contract can say what a file holds. It keeps the rules of `FileCalls` only if some premises
/// about the system hold, which `docs/DISK.md` lists.
pub struct SystemFile {
    file: fs::File,
}

/// A disk on a file of the operating system, whose length is the disk's size, or on a block device.
///
/// While this value exists, no other process has the file open as a disk, except that several may have it open for reading alone.
pub type FileDisk = DiskOver<SystemFile>;

/// Why a file is not opened as a disk. The file is unchanged. `FileDisk::open` answers 35 (DeviceFailed) in each case.
#[derive(Clone, Copy, Debug, Error)]
pub enum OpenFault {
    /// Another process has the file open as a disk.
    #[error("InUse")]
    InUse,
    /// The system refused.
    #[error("DeviceFailed")]
    DeviceFailed,
}

// What a disk is opened for.
#[derive(Clone, Copy)]
enum Access {
    // For reading alone, beside others that read.
    Read,
    // For reads and writes, alone.
    Change,
}

// Written by hand, so that crates that use this one rely on this proof and need not prove again how each part is dropped.
impl Drop for SystemFile {
    fn drop(self) {
        let SystemFile { file } = self;
    }
}

impl FileCalls for SystemFile {
    ghost honest = { false };

    ghost content = { λ _. [] };

    ghost settled_length = { λ _. false };

    ghost may_leave = { λ _ _. ⊤ };

    ghost moment = { λ _. 0 };

    ghost left_since = { λ _ _ _. ⊤ };

    fn read_some(&mut self, offset: u64, buffer: &mut [u8]) -> Result<usize, DiskFault> {
        Ok(self.file.read_at(buffer, offset)?)
    }

    fn write_some(&mut self, offset: u64, bytes: &[u8]) -> Result<usize, DiskFault> {
        Ok(self.file.write_at(bytes, offset)?)
    }

    fn sync_bytes(&mut self) -> Result<(), DiskFault> {
        Ok(self.file.sync_data()?)
    }

    fn sync_all(&mut self) -> Result<(), DiskFault> {
        Ok(self.file.sync_all()?)
    }

    fn len(&mut self) -> Result<u64, DiskFault> {
        Ok(self.file.metadata()?.len())
    }

    fn set_len(&mut self, size: u64) -> Result<(), DiskFault> {
        Ok(self.file.set_len(size)?)
    }

    ghost bytes_are_image = { λ file h. absurd (false≢true h) };

    ghost counts_now = { λ file t image h le now. absurd (false≢true h) };

    ghost only_now = { λ file image h left. absurd (false≢true h) };
}

// Makes a file at a path that must be free.
fn make_new(rt: &HostRuntime, path: &str) -> io::Result<fs::File> {
    let mut how = OpenOptions::new();
    how.read(true).write(true).create_new(true).mode(OWN);
    let file = how.open(rt, path)?;
    // The umask may have removed some of the rights.
    file.set_permissions(Permissions::from_mode(OWN))?;
    Ok(file)
}

// Opens a file, or makes it if it does not exist. A new file has its access rights from the first moment, because whoever has
// opened a file keeps access to it.
fn open_or_make(rt: &HostRuntime, path: &str) -> io::Result<fs::File> {
    match make_new(rt, path) {
        Ok(file) => Ok(file),
        // The file exists, or a link to it does.
        Err(_) => {
            let mut how = OpenOptions::new();
            how.read(true).write(true).create(true).mode(OWN);
            how.open(rt, path)
        }
    }
}

impl DiskOver<SystemFile> {
    /// Makes a disk on a file of `size` zeros, in place of any file at the path. Its space is allocated, and the file and its
    /// name are synced. An old journal there is made unrecognisable, and this is synced, before the old file is truncated, so a
    /// crash leaves either the whole old journal or nothing that is recognised as a journal.
    ///
    /// A block device is not truncated. The disk is its first `size` bytes; the first 17 become zeros, the others stay as they
    /// were.
    ///
    /// A new file gets the access rights 0600, whatever the umask, because it will have the sources of all units. An existing
    /// file keeps its rights.
    ///
    /// Fails with 35 (DeviceFailed) if the system refuses, the device has fewer than `size` bytes, or another process has the
    /// file open as a disk. In the last two cases the file or device is unchanged.
    pub fn create(rt: &HostRuntime, path: &str, size: usize) -> Result<FileDisk, DiskFault>
        ensures size { IfOk result (λ disk. disk.size ≡ size) }
        ensures failed { IfOk result (λ disk. disk.failed ≡ 0) }
        ensures sound { IfOk result (λ disk. disk.lost ≡ false) }
    {
        FileDisk::on_path(rt, open_or_make(rt, path)?, path, size)
    }

    /// Makes a disk as `create` does, at a path that must be free: fails with 35 if something is there, and leaves it unchanged.
    pub fn create_new(rt: &HostRuntime, path: &str, size: usize) -> Result<FileDisk, DiskFault>
        ensures size { IfOk result (λ disk. disk.size ≡ size) }
        ensures failed { IfOk result (λ disk. disk.failed ≡ 0) }
        ensures sound { IfOk result (λ disk. disk.lost ≡ false) }
    {
        FileDisk::on_path(rt, make_new(rt, path)?, path, size)
    }

    // Makes a disk of zeros on this file, which is at this path.
    fn on_path(
        rt: &HostRuntime,
        file: fs::File,
        path: &str,
        size: usize,
    ) -> Result<FileDisk, DiskFault>
        ensures size { IfOk result (λ disk. disk.size ≡ size) }
        ensures failed { IfOk result (λ disk. disk.failed ≡ 0) }
        ensures sound { IfOk result (λ disk. disk.lost ≡ false) }
    {
        // The lock comes first: a file that is in use is not changed.
        lock(&file, Access::Change)?;
        match device_size(&file)? {
            None => {
                let disk = DiskOver::create_on(SystemFile { file }, size)?;
                sync_folder(rt, path)?;
                Ok(disk)
            }
            Some(bytes) if bytes < size => Err(DiskFault::DeviceFailed),
            Some(_) => {
                let mut device = SystemFile { file };
                over::spoil(&mut device)?;
                Ok(DiskOver::on(device, size))
            }
        }
    }

    /// Opens the disk on an existing file, whose length becomes the disk's size, or on a block device. Whatever earlier processes
    /// left in the system's memory is synced first.
    ///
    /// Fails with 35 (DeviceFailed) if the system refuses, or another process has the file open as a disk.
    pub fn open(rt: &HostRuntime, path: &str) -> Result<FileDisk, DiskFault>
        ensures failed { IfOk result (λ disk. disk.failed ≡ 0) }
        ensures sound { IfOk result (λ disk. disk.lost ≡ false) }
    {
        Ok(FileDisk::open_to_change(rt, path)?)
    }

    /// Opens the disk as `open` does, and says why it is not opened: InUse if another process has the file open as a disk, for
    /// reading alone or not, and DeviceFailed if the system refuses.
    pub fn open_to_change(rt: &HostRuntime, path: &str) -> Result<FileDisk, OpenFault>
        ensures failed { IfOk result (λ disk. disk.failed ≡ 0) }
        ensures sound { IfOk result (λ disk. disk.lost ≡ false) }
    {
        FileDisk::open_as(rt, path, Access::Change)
    }

    /// Opens the disk as `open` does, but for reading alone: the system refuses each write (35). A sync puts on the medium what other
    /// processes have written. Other processes may have it open for reading at the same time.
    ///
    /// Fails with InUse if another process has the file open as a disk, and not for reading alone; with DeviceFailed if the system
    /// refuses.
    pub fn open_to_read(rt: &HostRuntime, path: &str) -> Result<FileDisk, OpenFault>
        ensures failed { IfOk result (λ disk. disk.failed ≡ 0) }
        ensures sound { IfOk result (λ disk. disk.lost ≡ false) }
    {
        FileDisk::open_as(rt, path, Access::Read)
    }

    // Opens the disk on an existing file.
    fn open_as(rt: &HostRuntime, path: &str, access: Access) -> Result<FileDisk, OpenFault>
        ensures failed { IfOk result (λ disk. disk.failed ≡ 0) }
        ensures sound { IfOk result (λ disk. disk.lost ≡ false) }
    {
        let mut how = OpenOptions::new();
        how.read(true).write(matches!(access, Access::Change));
        let file = how.open(rt, path)?;
        lock(&file, access)?;
        match device_size(&file)? {
            None => Ok(DiskOver::open_on(SystemFile { file })?),
            Some(bytes) => {
                let mut device = SystemFile { file };
                device.sync_all()?;
                Ok(DiskOver::on(device, bytes))
            }
        }
    }
}

impl From<io::Error> for OpenFault {
    ghost use Rattle.cc_disk.specs.declared.file.OpenFault.TheVariants.{DeviceFailed};

    ghost from_gives = { λ _ fault. fault ≡ DeviceFailed };

    fn from(_: io::Error) -> OpenFault {
        OpenFault::DeviceFailed
    }
}

impl From<DiskFault> for OpenFault {
    ghost use Rattle.cc_disk.specs.declared.file.OpenFault.TheVariants.{DeviceFailed};

    ghost from_gives = { λ _ fault. fault ≡ DeviceFailed };

    fn from(_: DiskFault) -> OpenFault {
        OpenFault::DeviceFailed
    }
}

impl From<OpenFault> for DiskFault {
    ghost use Rattle.cc_disk.specs.declared.disk.DiskFault.TheVariants.{DeviceFailed};

    ghost from_gives = { λ _ fault. fault ≡ DeviceFailed };

    fn from(_: OpenFault) -> DiskFault {
        DiskFault::DeviceFailed
    }
}

impl From<io::Error> for DiskFault {
    ghost use Rattle.cc_disk.specs.declared.disk.DiskFault.TheVariants.{DeviceFailed};

    ghost from_gives = { λ _ fault. fault ≡ DeviceFailed };

    fn from(_: io::Error) -> DiskFault {
        DiskFault::DeviceFailed
    }
}

// Locks the file for this process, or finds that another process has it. Never waits.
fn lock(file: &fs::File, access: Access) -> Result<(), OpenFault> {
    let answer = match access {
        Access::Read => file.try_lock_shared(),
        Access::Change => file.try_lock(),
    };
    match answer {
        Ok(()) => Ok(()),
        Err(TryLockError::WouldBlock) => Err(OpenFault::InUse),
        Err(TryLockError::Error(_)) => Err(OpenFault::DeviceFailed),
    }
}

// How many bytes a block device has, or `None` for a file that is not a block device. The system reports the length of a device
// as 0; a seek to the device's end shows its size.
fn device_size(file: &fs::File) -> Result<Option<usize>, DiskFault> {
    if !file.metadata()?.file_type().is_block_device() {
        return Ok(None);
    }
    let mut device = file;
    Ok(Some(device.seek(SeekFrom::End(0))? as usize))
}

// Syncs the file's name: until then a power cut may lose a new file's entry in its folder.
fn sync_folder(rt: &HostRuntime, path: &str) -> Result<(), DiskFault> {
    let folder = match Path::new(path).parent() {
        Some(folder) if !folder.as_str().is_empty() => folder.as_str(),
        _ => ".",
    };
    fs::File::open(rt, folder)?.sync_all()?;
    Ok(())
}
