// The units by name.

ghost use Rattle.std.specs.Prelude.{◌≡◌, ◌↔◌, ◌≤◌, ◌^◌, length, false, OnOk, OnErr, IfOk, IsOk, IsTrue};
ghost use Rattle.std.specs.Option.{option_map};
ghost use Rattle.std.specs.Arc.{arc_value};
ghost use Rattle.std.specs.Ordering.{nat_cmp};
ghost use Rattle.std.specs.Cmp.Lexicographic.{slice_cmp};
ghost use Rattle.std.specs.FinMap as map;
ghost use Rattle.cc_journal.specs.Format.{records, room_of};
ghost use Rattle.cc_library.specs.Apply.{apply, after, refusal};
ghost use Rattle.cc_library.specs.Compact.{adds_of, compacted};
ghost use Rattle.cc_library.specs.Recovered.{AreSpelled};
ghost use Rattle.cc_library.specs.declared.command.Change.TheVariants as change;
ghost use Rattle.cc_library.specs.internal.Halves.{begun, finished, undone};

use crate::body::{framed_body, length_with};
use crate::command::{Kind, LibraryCommand};
use crate::name::Name;
use crate::unit::SharedUnit;
use cc_journal::Body;
use cc_unit::StoredUnit;
use std::alloc::{AllocError, Global};
use std::collections::BTreeMap;
use std::marker::Model;
use std::sync::Arc;

/// The units by name, in the order of the names' bytes. Contracts see a finite map.
pub struct UnitMap {
    units: BTreeMap<Name, SharedUnit>,
}

// Written by hand, so that crates that use this one rely on this proof and need not prove again how each part is dropped.
impl Drop for UnitMap {
    fn drop(self) {
        let UnitMap { units } = self;
    }
}

impl Model for UnitMap {
    ghost use Rattle.std.specs.Ordering.{nat_cmp};
    ghost use Rattle.std.specs.Cmp.Lexicographic.{slice_cmp};
    ghost use Rattle.std.specs.FinMap as map;
    ghost use Rattle.cc_unit.specs.declared.unit.StoredUnit.{StoredUnit};
    ghost use Rattle.std.specs.Coded.{coded_ℕ, coded_list};
    ghost use Rattle.cc_unit.specs.contracts.unit.StoredUnit as stored;

    ghost Value = { map.FinMap (slice_cmp nat_cmp) StoredUnit };

    ghost coded = { map.code (coded_list coded_ℕ) stored.the_row.coded };

    ghost view = { λ m. map.from_entries m.units.entries };
}

impl UnitMap {
    /// The empty map. This takes no memory.
    pub fn new(alloc: Global) -> UnitMap
        ensures { result ≡ map.empty }
    {
        UnitMap {
            units: BTreeMap::new(alloc),
        }
    }

    /// The unit under this name, if there is one. This takes no memory.
    pub fn get(&self, name: &Name) -> Option<&Arc<StoredUnit>>
        ensures { option_map (λ unit. arc_value unit.now) result ≡ map.get self.now name.now }
    {
        match self.units.get(name) {
            Some(unit) => Some(unit.stored()),
            None => None,
        }
    }

    /// A copy of the map. Its units are shared; its names take memory. Err: memory ran out, or a unit already has as many owners
    /// as it can have.
    pub fn again(&self) -> Result<UnitMap, AllocError>
        ensures { IfOk result (λ units. units ≡ self.now) }
    {
        Ok(UnitMap {
            units: self.units.clone()?,
        })
    }

    /// Whether this name has a unit. This takes no memory.
    pub fn contains(&self, name: &Name) -> bool
        ensures { result ≡ map.contains_key self.now name.now }
    {
        self.units.contains_key(name)
    }

    /// The names, in the order of their bytes. Err: memory ran out.
    pub fn names(&self, alloc: Global) -> Result<Vec<Name>, AllocError>
        ensures { IfOk result (λ names. names.items ≡ map.keys self.now) }
    {
        let mut names = Vec::new(alloc);
        for name in self.units.keys() {
            names.push(name.clone()?)?;
        }
        Ok(names)
    }

    /// Whether the records of one Add per name, and the closed gate after them, fit in an area of this many bytes. This takes no
    /// memory.
    pub fn fits(&self, area: usize) -> bool
        requires some { 1 ≤ area }
        requires few { area ≤ 2 ^ 30 }
        ensures { IsTrue result ↔ (room_of (compacted self.now) ≤ area) }
    {
        let mut room = 1;
        for (name, unit) in self.units.iter() {
            room += length_with(name.bytes(), Some(unit.stored())) + 5;
            if area < room {
                return false;
            }
        }
        true
    }

    /// How many bytes the records of one Add per name take, and how many names there are. This takes no memory.
    pub fn measure(&self) -> (usize, usize)
        requires { room_of (compacted self.now) ≤ 2 ^ 30 }
        ensures bytes { result.0 ≡ length (records (compacted self.now)) }
        ensures names { result.1 ≡ map.len self.now }
    {
        let mut bytes = 0;
        let mut names = 0;
        for (name, unit) in self.units.iter() {
            bytes += length_with(name.bytes(), Some(unit.stored())) + 5;
            names += 1;
        }
        (bytes, names)
    }

    /// The bodies of one Add per name, in the order of the names' bytes. They must fit in an area.
    pub fn bodies(&self, alloc: Global) -> Result<Vec<Body>, AllocError>
        requires { room_of (compacted self.now) ≤ 2 ^ 30 }
        ensures { IfOk result (λ bodies. AreSpelled bodies.items (adds_of self.now)) }
    {
        let mut bodies = Vec::new(alloc);
        for (name, unit) in self.units.iter() {
            let body = framed_body(alloc, Kind::Add, name, Some(unit.stored()))?;
            bodies.push(body)?;
        }
        Ok(bodies)
    }

    /// The number with which the map would refuse the command now, 31 or 32, if it would. This takes no memory.
    pub fn refusal(&self, command: &LibraryCommand) -> Option<u32>
        ensures { result ≡ refusal (apply self.now command.now) }
    {
        match command {
            LibraryCommand::Add(name, _) => { if self.contains(name) { Some(31) } else { None } }
            LibraryCommand::Replace(name, _) | LibraryCommand::Withdraw(name) => {
                if self.contains(name) { None } else { Some(32) }
            }
        }
    }

    /// Carries out the command, unless the map refuses it. If memory runs out, the map stays as it was.
    pub fn apply(&mut self, command: &LibraryCommand) -> Result<(), AllocError>
        ensures ok { OnOk result (self.new ≡ after self.old command.now) }
        ensures leaves { OnErr result (self.new ≡ self.old) }
    {
        if self.refusal(command).is_some() {
            return Ok(());
        }
        match command {
            LibraryCommand::Add(name, unit) | LibraryCommand::Replace(name, unit) => {
                self.put(name.clone()?, unit.again()?)
            }
            LibraryCommand::Withdraw(name) => {
                self.remove(name);
                Ok(())
            }
        }
    }

    /// Adds a unit under a name, unless the name has one. The unit is shared. Err: memory ran out, or the unit already has as many
    /// owners as it can have; the map stays as it was.
    pub fn add(&mut self, name: &Name, unit: &Arc<StoredUnit>) -> Result<(), AllocError>
        ensures ok { OnOk result (self.new ≡ after self.old (change.Add name.now (arc_value unit.now))) }
        ensures leaves { OnErr result (self.new ≡ self.old) }
    {
        let unit = SharedUnit::new(Arc::try_clone(unit)?);
        let command = LibraryCommand::Add(name.clone()?, unit);
        let answer = self.apply(&command);
        drop(command);
        answer
    }

    // Takes the memory that an accepted command needs, so that the command can then be finished or undone without more. If memory runs
    // out, the map stays as it was.
    pub(crate) fn begin(&mut self, command: &LibraryCommand) -> Result<(), AllocError>
        ensures ok { OnOk result (self.new ≡ begun self.old command.now) }
        ensures err { OnErr result (self.new ≡ self.old) }
    {
        match command {
            LibraryCommand::Add(name, unit) => self.put(name.clone()?, unit.again()?),
            LibraryCommand::Replace(_, _) | LibraryCommand::Withdraw(_) => Ok(()),
        }
    }

    // Finishes a command that was begun. This takes no memory.
    pub(crate) fn finish(&mut self, command: LibraryCommand)
        ensures { self.new ≡ finished self.old command }
    {
        match command {
            LibraryCommand::Add(_, _) => {}
            LibraryCommand::Replace(name, unit) => {
                if self.contains(&name) {
                    let _ = self.put(name, unit);
                }
            }
            LibraryCommand::Withdraw(name) => self.remove(&name),
        }
    }

    // Undoes a command that was begun. This takes no memory.
    pub(crate) fn undo(&mut self, command: LibraryCommand)
        ensures { self.new ≡ undone self.old command }
    {
        match command {
            LibraryCommand::Add(name, _unit) => self.remove(&name),
            LibraryCommand::Replace(_, _) | LibraryCommand::Withdraw(_) => {}
        }
    }

    // Sets the unit of a name. If memory runs out, the map stays as it was; for a present name no memory is needed.
    pub(crate) fn put(&mut self, name: Name, unit: SharedUnit) -> Result<(), AllocError>
        ensures ok { OnOk result (self.new ≡ map.insert self.old name unit) }
        ensures err { OnErr result (self.new ≡ self.old) }
        ensures replaces { IsTrue (map.contains_key self.old name) → IsOk result }
    {
        let _ = self.units.insert(name, unit)?;
        Ok(())
    }

    // Carries out the command if the map accepts it, and answers whether the map does. Nothing is promised about the map after a
    // refused command.
    pub(crate) fn accept(&mut self, command: LibraryCommand) -> Result<bool, AllocError>
        ensures done { IfOk result (λ done. IsTrue done → IsOk (apply self.old command) × (self.new ≡ after self.old command)) }
        ensures refused { IfOk result (λ done. done ≡ false → IsOk (apply self.old command) → ⊥) }
    {
        match command {
            LibraryCommand::Add(name, unit) => Ok(!self.set(name, unit)?),
            LibraryCommand::Replace(name, unit) => self.set(name, unit),
            LibraryCommand::Withdraw(name) => Ok(self.take(&name)),
        }
    }

    // Sets the unit of a name, and answers whether the name had one.
    fn set(&mut self, name: Name, unit: SharedUnit) -> Result<bool, AllocError>
        ensures set { OnOk result (self.new ≡ map.insert self.old name unit) }
        ensures had { IfOk result (λ had. had ≡ map.contains_key self.old name) }
    {
        let old = self.units.insert(name, unit)?;
        Ok(old.is_some())
    }

    // Removes a name, and answers whether the name had a unit.
    fn take(&mut self, name: &Name) -> bool
        ensures taken { self.new ≡ map.remove self.old name.now }
        ensures had { result ≡ map.contains_key self.old name.now }
    {
        let old = self.units.remove(name);
        old.is_some()
    }

    // Removes a name, if the map has it.
    pub(crate) fn remove(&mut self, name: &Name)
        ensures { self.new ≡ map.remove self.old name.now }
    {
        let _ = self.units.remove(name);
    }
}
