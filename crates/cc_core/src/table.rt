// Values by number: jobs by client, work by worker.

ghost use Rattle.std.specs.Prelude.{◌≡◌, OnOk, OnErr};
ghost use Rattle.std.specs.Option.{option_copied};
ghost use Rattle.std.specs.Ordering.{nat_cmp};
ghost use Rattle.std.specs.FinMap as map;

use std::alloc::{AllocError, Global};
use std::collections::BTreeMap;
use std::marker::Model;

/// Values by number. Contracts see a finite map.
#[derive(Drop)]
pub struct Table<V> {
    pub(crate) values: BTreeMap<u64, V>,
}

impl<V> Model for Table<V> {
    ghost use Rattle.std.specs.Ordering.{nat_cmp};
    ghost use Rattle.std.specs.FinMap as map;
    ghost use Rattle.std.specs.Coded.{coded_ℕ};

    ghost Value = { map.FinMap nat_cmp V };

    ghost coded = { map.code coded_ℕ V.code };

    ghost view = { λ t. map.from_entries t.values.entries };
}

impl<V: Drop> Table<V> {
    /// The empty table.
    pub(crate) fn new(alloc: Global) -> Table<V>
        ensures { result ≡ map.empty }
    {
        Table {
            values: BTreeMap::new(alloc),
        }
    }

    /// The value under this number, if there is one. Needs no memory.
    pub(crate) fn get(&self, number: u64) -> Option<&V>
        ensures { option_copied result ≡ map.get self.now number }
    {
        self.values.get(&number)
    }

    /// Sets the value under this number. If memory runs out, the table stays as it was.
    pub(crate) fn put(&mut self, number: u64, value: V) -> Result<(), AllocError>
        ensures ok { OnOk result (self.new ≡ map.insert self.old number value) }
        ensures err { OnErr result (self.new ≡ self.old) }
    {
        let _ = self.values.insert(number, value)?;
        Ok(())
    }

    /// Removes the value under this number, if there is one.
    pub(crate) fn remove(&mut self, number: u64)
        ensures { self.new ≡ map.remove self.old number }
    {
        let _ = self.values.remove(&number);
    }
}
