// A service on a file, which is dropped before its end, and what the next service on the file finds.

ghost use Rattle.tests_service.specs.internal.Named.{AreNamed};

use super::reading::{done_at, is_found, refused_with};
use super::starting::{Own, opened};
use crate::helpers::{AREA, SIZE, TEXTS};
use crate::model::shows;
use cc_disk::FileDisk;
use cc_journal::format;
use cc_pool::NoGate;
use cc_service::{Client, Fresh, Service};
use std::alloc::Global;
use std::fs;
use std::marker::Brand;
use std::sync::Wait;
use std::test::Fail;
use std::thread::Threads;
use tests_texts::lists::alone;

#[test]
fn a_service_that_is_let_go(rt: HostRuntime) -> Result<(), Fail> {
    let alloc = rt.alloc();
    let path = "a_service_that_is_let_go.disk";
    let disk = FileDisk::create(&rt, path, SIZE)?;
    let mut disk = not_a_library::<Brand, HostRuntime>(&rt, alloc, Fresh::new(alloc)?, disk)?;
    format(&mut disk, AREA)?;
    assert!(rt; adds::<Brand, HostRuntime>(&rt, alloc, Fresh::new(alloc)?, disk)?);
    let disk = FileDisk::open(&rt, path)?;
    assert!(rt; finds::<Brand, HostRuntime>(&rt, alloc, Fresh::new(alloc)?, disk)?);
    fs::remove_file(&rt, path)?;
    Ok(())
}

// The disk, after opening a service on it was refused with the fault 38.
fn not_a_library<N, R>(
    rt: &R,
    alloc: Global,
    fresh: Fresh,
    disk: FileDisk,
) -> Result<FileDisk, Fail>
where
    N: Own,
    R: Threads + Wait + Copy + Send + 'static,
    requires { AreNamed fresh N.name N.parts N.queue N.failures }
{
    refused_with(
        Service::<N, FileDisk>::open(rt, alloc, fresh, disk, 1, NoGate),
        38,
    )
}

// The service on a file, with one worker, and a client.
fn begun<N, R>(
    rt: &R,
    alloc: Global,
    fresh: Fresh,
    disk: FileDisk,
) -> Result<(Service<N, FileDisk>, Client<N>), Fail>
where
    N: Own,
    R: Threads + Wait + Copy + Send + 'static,
    requires { AreNamed fresh N.name N.parts N.queue N.failures }
{
    let service = opened(Service::open(rt, alloc, fresh, disk, 1, NoGate))?;
    let client = service.client(rt, alloc)?;
    Ok((service, client))
}

// Adds a unit, and drops the service once the receipt is there.
fn adds<N: Own, R>(rt: &R, alloc: Global, fresh: Fresh, disk: FileDisk) -> Result<bool, Fail>
where
    R: Threads + Wait + Copy + Send + 'static,
    requires { AreNamed fresh N.name N.parts N.queue N.failures }
{
    let (service, mut client) = begun::<N, R>(rt, alloc, fresh, disk)?;
    Ok(done_at(service.add(rt, alloc, &mut client, b"a", TEXTS[2])) == 1)
}

// Finds the unit that the other service added: it is in the base, and in no entry of the new history.
fn finds<N: Own, R>(rt: &R, alloc: Global, fresh: Fresh, disk: FileDisk) -> Result<bool, Fail>
where
    R: Threads + Wait + Copy + Send + 'static,
    requires { AreNamed fresh N.name N.parts N.queue N.failures }
{
    let (service, mut client) = begun::<N, R>(rt, alloc, fresh, disk)?;
    let found = is_found(service.get(rt, alloc, &mut client, b"a"), 1, TEXTS[2]);
    match service.finish(rt, alloc, alone(alloc, client)?) {
        Ok(closed) => Ok(
            found
                && closed.history.len() == 1
                && closed.base.names(alloc)?.len() == 1
                && shows(alloc, &closed.library, &[Some(2), None, None])?,
        ),
        Err(back) => {
            drop(back);
            Err(Fail::from("not finished"))
        }
    }
}
