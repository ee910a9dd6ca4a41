// Services that begin on a device.

ghost use Rattle.std.specs.Prelude.{◌≡◌, ◌≤◌};
ghost use Rattle.cc_disk.specs.Model.{bytes_of};
ghost use Rattle.cc_library.specs.Apply.{Units};
ghost use Rattle.cc_library.specs.Recovered.{Recovers};
ghost use Rattle.tests_service.specs.internal.Named.{IsNamed};

use super::reading::number;
use crate::helpers::{SIZE, formatted, found, opened as opened_library};
use crate::model::{Model, shows};
use cc_disk::{Disk, FuseDisk, FuseMode, MemoryDisk};
use cc_library::UnitMap;
use cc_pool::Gate;
use cc_service::{Client, Closed, Fresh, Named, Service, ServiceFault};
use std::alloc::Global;
use std::marker::Brand;
use std::sync::Wait;
use std::test::Fail;
use std::thread::Threads;

/// The device of all tests here.
pub type Device = FuseDisk<MemoryDisk>;

/// A service on such a device.
pub type Fused<N> = Service<N, Device>;

/// The parameter that names a test's own service.
pub trait Own: Named + Send + Sync + 'static {}

impl Own for Brand {}

/// How many calls of a device pass if none is to fail.
pub const ALL: u64 = 1 << 40;

/// How many calls of its device an opening makes.
pub const OPENING: u64 = 3;

/// A text with one function.
pub const SMALL: &[u8] = b"int main(void){return 1;}";

/// What a service begins with: a formatted device, its map, and the ledger and the queue, which no type names yet.
#[derive(Drop)]
pub struct Begun {
    pub device: Device,
    pub base: UnitMap,
    pub fresh: Fresh,
    ghost base_is: { (units : Units) → Recovers (bytes_of device.disk.cells) units → units ≡ base },
}

/// Prepares a formatted device that passes this many calls before one fails.
pub fn prepared(alloc: Global, passes: u64) -> Result<Begun, Fail> {
    let (disk, base) = found(alloc, formatted(alloc)?)?;
    let device = FuseDisk::new(disk, passes, FuseMode::Once);
    let fresh = Fresh::new(alloc)?;
    Ok(Begun {
        device,
        base,
        fresh,
    })
}

/// The open service; or why it is not open, and the device.
pub fn begin<N, R, G>(
    rt: &R,
    alloc: Global,
    begun: Begun,
    workers: usize,
    gate: G,
) -> Result<Fused<N>, (ServiceFault, Device)>
where
    N: Named + Send + Sync + 'static,
    R: Threads + Wait + Copy + Send + 'static,
    G: Gate + Drop + Send + Sync + 'static,
    requires names { IsNamed begun.fresh begun.base N.name N.parts N.queue N.failures N.base N.from N.left }
    requires some { 1 ≤ workers }
    requires few { workers ≤ 8 }
{
    let Begun {
        device,
        base,
        fresh,
    } = begun;
    drop(base);
    Service::open(rt, alloc, fresh, device, workers, gate)
}

/// The service that an opening returns.
pub fn opened<N: Named, D: Disk + Drop>(
    answer: Result<Service<N, D>, (ServiceFault, D)>,
) -> Result<Service<N, D>, Fail> {
    match answer {
        Ok(service) => Ok(service),
        Err((fault, disk)) => {
            drop(disk);
            let number = fault.number();
            drop(fault);
            Err(Fail::from(if number == 41 {
                "no workers"
            } else {
                "not opened"
            }))
        }
    }
}

/// Adds the small text under a name. The result is the client afterwards, and the number of the answer.
pub fn adds<N, R>(
    rt: &R,
    alloc: Global,
    service: &Fused<N>,
    mut client: Client<N>,
    name: &[u8],
) -> (Client<N>, u32)
where
    N: Named + Send + Sync + 'static,
    R: Wait,
{
    let answer = number(service.add(rt, alloc, &mut client, name, SMALL));
    (client, answer)
}

/// What is left of a service that ends with all its clients.
pub fn ended<N, R>(
    rt: &R,
    alloc: Global,
    service: Fused<N>,
    clients: Vec<Client<N>>,
) -> Result<Closed<Device>, Fail>
where
    N: Named + Send + Sync + 'static,
    R: Wait,
{
    match service.finish(rt, alloc, clients) {
        Ok(closed) => Ok(closed),
        Err(back) => {
            drop(back);
            Err(Fail::from("not finished"))
        }
    }
}

/// Whether the library on the disk has the units of either model, after a crash that leaves 0x00, 0xa5 or 0xff wherever it may
/// leave anything.
pub fn holds(alloc: Global, device: Device, either: &Model, other: &Model) -> Result<bool, Fail> {
    let disk = device.into_disk();
    let mut right = true;
    for byte in [0x00u8, 0xa5, 0xff] {
        let choice = vec![in alloc; byte; SIZE]?;
        let library = opened_library(alloc, disk.crash(alloc, &choice)?)?;
        right = right && (shows(alloc, &library, either)? || shows(alloc, &library, other)?);
    }
    Ok(right)
}
