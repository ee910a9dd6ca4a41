// How a folder is made, and who may do what in it.
//
// A folder that has the set-group-id bit is a group's: only its members may be clients. In any other folder everybody may be a
// client. `new` and `tmp` are sticky then, so that nobody removes another user's files. Only the server writes to `done`.

ghost use Rattle.std.specs.Prelude.{◌≡◌, IfSome};

use crate::found::Found;
use crate::layout::{FolderLayout, Held};
use crate::names::{TRIED, fresh_name};
use crate::place::Place;
use crate::refusal::Refusal;
use std::fs::File;
use std::io;

/// A part of a folder whose rights are wider than they should be.
#[derive(Clone, Copy, Drop)]
pub struct WidePart {
    /// `cur`, `tmp`, `new`, `done`, or `.` for the folder itself.
    pub part: &'static str,
    /// The rights that it has, 0 to 0o7777.
    pub mode: u32,
    /// The widest rights that it should have.
    pub most: u32,
}

// Makes a part with these rights, regardless of the process's umask, if nothing is at its path. Until it has these rights, its name
// is `making`. An `Err` if something that is not an empty directory has that name: whoever put it there would share the part.
fn make_part(layout: &FolderLayout, part: &str, making: &str, rights: u32) -> Result<(), Refusal> {
    if layout.has(part)? {
        return Ok(());
    }
    // A server that was killed here may have left this directory.
    if layout.has(making)? {
        layout.remove_directory(making)?;
    }
    layout.make_directory(making)?;
    layout.set_rights(making, rights)?;
    layout.rename_part(making, part)
}

// Makes the parts that are not there.
fn make_parts(layout: &FolderLayout) -> Result<(), Refusal> {
    let is_group = match layout.look_at(".")? {
        Some(found) => found.rights() & 0o2000 != 0,
        None => false,
    };
    // What is made in a group's folder belongs to the group, including answers.
    let (cur, clients, done) = if is_group {
        (0o2700, 0o2770, 0o2770)
    } else {
        (0o700, 0o3777, 0o755)
    };
    make_part(layout, "cur", ".making-cur", cur)?;
    make_part(layout, "tmp", ".making-tmp", clients)?;
    make_part(layout, "new", ".making-new", clients)?;
    make_part(layout, "done", ".making-done", done)
}

// An `Err` if the folder has a part but no `lock`, which is made first. Such a folder is not a spool, and what is in it does not
// belong to a server. The parts are looked at before `lock`, since another server may be making them.
fn must_be_spool(layout: &FolderLayout) -> Result<(), Refusal> {
    let mut has_parts = false;
    for part in ["cur", "tmp", "new", "done"] {
        has_parts |= layout.has(part)?;
    }
    if has_parts && !layout.has("lock")? {
        return Err(Refusal::NoSpool);
    }
    Ok(())
}

// Makes the folder if it is not there.
fn make_folder(layout: &FolderLayout) -> Result<(), Refusal> {
    if !layout.has(".")? {
        layout.make_folder()?;
        layout.set_rights(".", 0o755)?;
        // A directory that can't be opened can't be synced: then only a power cut soon after could lose the folder.
        let _ = layout.sync_above();
    }
    Ok(())
}

// An `Err` if the folder does not belong to the user whose file this start made in it, or everybody may write to it, or its path is a
// link that belongs to neither that user nor root. Whoever may write to the folder can put a link in the place of `lock` or of a part
// at any moment, and a file would be made through it. The owner of a link at the folder's path can do the same. Root can do so in any
// case.
fn must_be_own(layout: &FolderLayout, made: &Found) -> Result<(), Refusal> {
    let Some(found) = layout.look_at(".")? else {
        return Err(Refusal::Foreign);
    };
    if found.user != made.user {
        return Err(Refusal::Foreign);
    }
    if found.rights() & 0o002 != 0 {
        return Err(Refusal::Wide);
    }
    match layout.look_at_name()? {
        Some(named) if named.user == made.user || named.user == 0 => Ok(()),
        _ => Err(Refusal::Foreign),
    }
}

// Makes a file and removes it: a file that is older than this one was written before this start.
fn begin(layout: &FolderLayout, process: u32) -> Result<Found, Refusal> {
    let own = fresh_name(&layout.rt, layout.alloc, process)?;
    let name = format!(in layout.alloc; "{TRIED}{own}")?;
    let file = layout.make_part_file(name.as_str())?;
    let begun = Found::of_file(&file);
    drop(file);
    let _ = layout.remove_part(name.as_str());
    drop(own);
    drop(name);
    begun
}

fn take(layout: &mut FolderLayout, process: u32) -> Result<Option<Held>, Refusal> {
    make_folder(layout)?;
    must_be_spool(layout)?;
    let begun = begin(layout, process)?;
    must_be_own(layout, &begun)?;
    let Some(held) = layout.lock()? else {
        return Ok(None);
    };
    match settle_folder(layout, &held, &begun, process) {
        Ok(()) => {
            held.open_to_clients(layout.file_rights);
            Ok(Some(held))
        }
        Err(refusal) => {
            drop(held);
            Err(refusal)
        }
    }
}

/// Takes the folder for this server until the returned lock is released. The result is `None` if another server held the lock for a
/// whole second.
///
/// What is missing is made: the folder with 0755; `cur` with 0700, `new` and `tmp` with 3777, `done` with 0755. If the folder has the
/// set-group-id bit, `cur` gets 2700 and the others 2770. What is there keeps its rights. Then everything that a server does in the
/// folder is tried. Three things give an `Err`. First, checked before `lock` is opened: the folder belongs to another user, its path
/// is a link that belongs to another user except root, or everybody may write to it. Second: a part is there but `lock` is not.
/// Third: the system refuses a call; what was made until then stays.
pub fn take_folder(layout: &mut FolderLayout, process: u32) -> io::Result<Option<Held>> {
    Ok(take(layout, process)?)
}

fn settle_folder(
    layout: &mut FolderLayout,
    held: &Held,
    begun: &Found,
    process: u32,
) -> Result<(), Refusal> {
    layout.hold(held)?;
    // The file that was opened must be the one that is at `lock`, not another file reached through a link.
    layout.must_be_held()?;
    layout.take_old_stop_back(begun)?;
    make_parts(layout)?;
    for part in [".", "cur", "tmp", "new", "done"] {
        layout.sync_part(part)?;
    }
    layout.look_for_rights();
    try_folder(layout, process)
}

// Tries what the server and clients do: makes a file in `cur`, links it into `new`, moves it back, moves it to `done`, removes it, and syncs
// `cur`.
fn try_folder(layout: &FolderLayout, process: u32) -> Result<(), Refusal> {
    let own = fresh_name(&layout.rt, layout.alloc, process)?;
    // No script has a name with a dot.
    let name = format!(in layout.alloc; "{TRIED}{own}")?;
    let tried = try_moves(layout, name.as_str());
    for place in [Place::Claimed, Place::Waiting, Place::Done] {
        let _ = layout.remove(place, name.as_str());
    }
    drop(own);
    drop(name);
    tried?;
    layout.sync_claims()
}

fn try_moves(layout: &FolderLayout, name: &str) -> Result<(), Refusal> {
    let file = layout.make(Place::Claimed, name)?;
    let made = Found::of_file(&file);
    drop(file);
    try_owners(layout, &made?)?;
    layout.link(Place::Claimed, name, Place::Waiting, name)?;
    layout.remove(Place::Claimed, name)?;
    layout.rename(name, Place::Waiting, Place::Claimed)?;
    layout.rename(name, Place::Claimed, Place::Done)
}

// Whether a part is a directory with the owner and the group that clients expect, if `made` is a file of the server. A sticky part
// has to be the server's own.
fn is_right(found: &Found, made: &Found, is_servers: bool, is_shared: bool) -> bool {
    let is_own = found.user == made.user;
    let is_free = found.rights() & 0o1000 == 0 || is_own;
    let is_reached = !is_shared || found.group == made.group;
    found.is_directory() && is_free && is_reached && (is_own || !is_servers)
}

// An `Err` if the server's files are not what clients expect (owned by the owner of the folder and of `cur`, and by the group if the
// folder belongs to one), or if the server may not take others' scripts out of a sticky part.
fn try_owners(layout: &FolderLayout, made: &Found) -> Result<(), Refusal> {
    let is_group = layout.is_group();
    for (part, is_servers, is_shared) in [
        (".", true, false),
        ("cur", true, is_group),
        ("new", false, is_group),
        ("tmp", false, is_group),
        ("done", false, is_group),
    ] {
        match layout.look_at(part)? {
            Some(found) if is_right(&found, made, is_servers, is_shared) => {}
            _ => return Err(Refusal::NotOwn),
        }
    }
    Ok(())
}

// The part, if its rights are wider than `most`: that is, if they have a bit that `most` lacks, or, for a sticky part, if everybody
// may write and the sticky bit is missing.
fn wide_part(part: &'static str, mode: u32, most: u32) -> Option<WidePart>
    ensures { IfSome result (λ wide. (wide.mode ≡ mode) × (wide.most ≡ most)) }
{
    let is_wide = if most == 0o3777 {
        mode & 0o1002 == 0o0002
    } else {
        mode & 0o777 & !most != 0
    };
    if is_wide {
        Some(WidePart { part, mode, most })
    } else {
        None
    }
}

// Notes a part if its rights are wider than `most`.
fn note_wide(
    layout: &FolderLayout,
    part: &'static str,
    most: u32,
    wide: &mut Vec<WidePart>,
) -> Result<(), Refusal> {
    let Some(found) = layout.look_at(part)? else {
        return Ok(());
    };
    if let Some(part) = wide_part(part, found.rights(), most)
        && wide.push(part).is_err()
    {
        return Err(Refusal::NoMemory);
    }
    Ok(())
}

/// The parts whose rights are wider than they should be: with these rights, other users could act as the server, or take scripts and
/// answers away.
pub fn wide_parts(layout: &FolderLayout) -> io::Result<Vec<WidePart>> {
    let mut wide = Vec::new(layout.alloc);
    for (part, most) in [
        (".", 0o755),
        ("cur", 0o700),
        ("tmp", 0o3777),
        ("new", 0o3777),
        ("done", 0o775),
    ] {
        note_wide(layout, part, most, &mut wide)?;
    }
    Ok(wide)
}
