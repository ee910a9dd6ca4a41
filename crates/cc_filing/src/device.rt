// Whether a block device may be overwritten with a library. The check is a help and not a promise, since the system may begin
// to use a device at any moment.

ghost use Rattle.std.specs.Prelude.{⊤};

use cc_disk::{Disk, FileDisk, OpenFault};
use cc_library::LibraryFault;
use std::fs;
use std::os::unix::fs::{FileTypeExt, MetadataExt};

/// Why there is no disk on the file.
#[derive(Clone, Copy, Drop)]
pub enum NoDisk {
    /// A call of the disk or the library was refused.
    Refused(LibraryFault),
    /// 34: the device has fewer bytes than the library takes.
    SmallDevice,
    /// 35: another process has the file open, and still had it when the time to wait was over.
    FileInUse,
    /// 35: the device is mounted or used for swapping, or another device is built on it.
    DeviceInUse,
    /// 35: the device has something on it that is not a library.
    OtherContent,
    /// 35: the name under which a new library is made already names a library with records.
    Prepared,
}

impl NoDisk {
    /// The fault to report.
    pub fn fault(&self) -> LibraryFault {
        match self {
            NoDisk::Refused(fault) => *fault,
            NoDisk::SmallDevice => LibraryFault::Full,
            NoDisk::FileInUse | NoDisk::DeviceInUse | NoDisk::OtherContent | NoDisk::Prepared =>
                LibraryFault::DiskFault,
        }
    }
}

impl From<OpenFault> for NoDisk {
    ghost from_gives = { λ _ _. ⊤ };

    fn from(fault: OpenFault) -> NoDisk {
        match fault {
            OpenFault::InUse => NoDisk::FileInUse,
            OpenFault::DeviceFailed => NoDisk::Refused(LibraryFault::DiskFault),
        }
    }
}

/// The name in a library's header, at byte 1.
const LIBRARY: &[u8] = b"CCLIB01";

/// The first byte of a record that is in force.
const OPEN_GATE: &[u8] = b"\xa5";

/// Offsets and bytes by which other content is recognized, whose first 16 bytes may be zeros: partition tables, and the
/// volumes and file systems of Linux.
const OTHERS: [(usize, &[u8]); 7] = [
    (510, b"\x55\xaa"),
    (512, b"EFI PART"),
    (512, b"LABELONE"),
    (1080, b"\x53\xef"),
    (4086, b"SWAPSPACE2"),
    (4096, b"\xfc\x4e\x2b\xa9"),
    (65600, b"_BHRfS_M"),
];

// Whether the disk has these bytes, at most 16 of them, at that offset.
fn has(disk: &mut FileDisk, offset: usize, wanted: &[u8]) -> bool {
    let mut found = [0u8; 16];
    let size = disk.size();
    if size < 16 || size - 16 < offset {
        return false;
    }
    disk.read_at(offset, &mut found).is_ok() && found.starts_with(wanted)
}

// Whether the disk has a library with a record: the gate of the first record, in the area that byte 0 names, is open.
fn has_record(disk: &mut FileDisk) -> bool {
    let mut header = [0u8; 16];
    if disk.size() < 16
        || disk.read_at(0, &mut header).is_err()
        || !header[1..].starts_with(LIBRARY)
    {
        return false;
    }
    let area = u32::from_le_bytes([header[8], header[9], header[10], header[11]]);
    let begin = if header[0] % 2 == 0 {
        16
    } else {
        16 + area as usize
    };
    has(disk, begin, OPEN_GATE)
}

/// Whether a file has a library with a record. A file that can't be opened, or that another process has open, counts as one.
pub(crate) fn is_prepared(files: &HostRuntime, path: &str) -> bool {
    match FileDisk::open(files, path) {
        Ok(mut disk) => has_record(&mut disk),
        Err(_) => true,
    }
}

// Whether the disk has a library, or begins with 16 zeros and has none of the other content.
fn is_free(disk: &mut FileDisk) -> bool {
    if has(disk, 1, LIBRARY) {
        return true;
    }
    if !has(disk, 0, &[0; 16]) {
        return false;
    }
    for (offset, known) in OTHERS {
        if has(disk, offset, known) {
            return false;
        }
    }
    true
}

// The device number of the block device at that path, if there is one.
fn device_at(files: &HostRuntime, path: &str) -> Option<u64> {
    match fs::metadata(files, path) {
        Ok(found) if found.file_type().is_block_device() => Some(found.rdev()),
        _ => None,
    }
}

// Whether a line of the file `list` begins with a path of the device, by any of its names.
fn is_listed(files: &HostRuntime, list: &str, device: u64) -> bool {
    let Ok(text) = fs::read_to_string(files, list) else {
        return false;
    };
    for line in text.as_str().lines() {
        let path = line.split_whitespace().next().unwrap_or("");
        if path.starts_with('/') && device_at(files, path) == Some(device) {
            return true;
        }
    }
    false
}

// Whether another device is built on this one, according to the folder that the system keeps for each device.
fn has_holders(files: &HostRuntime, device: u64) -> bool {
    let major = (device >> 8 & 0xfff) | (device >> 32 & 0xffff_f000);
    let minor = (device & 0xff) | (device >> 12 & 0xffff_ff00);
    let Ok(folder) = format!(in files.alloc(); "/sys/dev/block/{major}:{minor}/holders") else {
        return false;
    };
    match fs::read_dir(files, folder.as_str()) {
        Ok(mut entries) => entries.next().is_some(),
        Err(_) => false,
    }
}

/// Whether a library of that size may be put on the file: `Ok` for each file that is not a block device.
pub fn may_overwrite(files: &HostRuntime, path: &str, size: usize) -> Result<(), NoDisk> {
    let Some(device) = device_at(files, path) else {
        return Ok(());
    };
    if is_listed(files, "/proc/mounts", device)
        || is_listed(files, "/proc/swaps", device)
        || has_holders(files, device)
    {
        return Err(NoDisk::DeviceInUse);
    }
    let Ok(mut disk) = FileDisk::open(files, path) else {
        return Err(NoDisk::Refused(LibraryFault::DiskFault));
    };
    let is_free = is_free(&mut disk);
    if disk.failures() > 0 {
        return Err(NoDisk::Refused(LibraryFault::DiskFault));
    }
    if !is_free {
        return Err(NoDisk::OtherContent);
    }
    if disk.size() < size {
        return Err(NoDisk::SmallDevice);
    }
    Ok(())
}
