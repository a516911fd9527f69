// Allow tables, and how a row is found by its origin.
ghost use Rattle.std.specs.Prelude.{◌≡◌, ◌∷◌, ◌++◌, [], OnErr, OnOk, option_copied};
ghost use Rattle.server_tables.specs.Tables.{row_of};

use std::alloc::Global;
use std::collections::BTreeMap;
use std::marker::Model;
use value_bytes::{Bytes, BytesList, OutOfMemory};

/// A row of an allow table: requests from this origin may have these methods and these header names, and
/// credentials where it says so.
#[derive(Drop)]
pub struct Row {
    /// In a table that was read: a serialised origin (HTML, section 7.1.1).
    pub origin: Bytes,
    /// In a table that was read: tokens other than `*`.
    pub methods: BytesList,
    /// In a table that was read: tokens other than `*`, in lower case.
    pub names: BytesList,
    pub credentials: bool,
}

/// An allow table, seen as its rows. A row is found by its origin in a map.
#[derive(Drop)]
pub struct AllowTable {
    rows: Vec<Row>,
    // The place of the first row with each origin.
    places: BTreeMap<Vec<u8>, usize>,
}

impl Model for AllowTable {
    ghost use Rattle.std.specs.Prelude.{List};
    ghost use Rattle.std.specs.BTreeMap.{IsOrdered};
    ghost use Rattle.server_tables.specs.Private.Places.{ArePlaced, key_cmp};
    ghost use Rattle.server_tables.specs.declared.table.Row.{Row};

    ghost Value = { List Row };

    ghost view = { λ table. table.rows.items };

    ghost invariant = { λ table. IsOrdered (key_cmp (λ key. key.items)) table.places
        × ArePlaced (λ key. key.items) table.places.entries table.rows.items };
}

impl AllowTable {
    /// The table without rows. It takes no memory.
    pub fn new(alloc: Global) -> AllowTable
        ensures { result ≡ [] }
    {
        AllowTable {
            rows: Vec::new(alloc),
            places: BTreeMap::new(alloc),
        }
    }

    /// Its rows, in order.
    pub fn rows(&self) -> &[Row]
        ensures { result.now ≡ self.now }
    {
        self.rows.as_slice()
    }

    /// The first row with this origin, if one has it. It takes no memory, and as long as a look into a map.
    pub fn row_of(&self, origin: &[u8]) -> Option<&Row>
        ensures { option_copied result ≡ row_of self.now origin.now }
    {
        match self.places.get(origin) {
            Some(place) => Some(&self.rows[*place]),
            None => None,
        }
    }

    /// Adds a row at the end. After `OutOfMemory` the table is as it was.
    pub fn add(&mut self, alloc: Global, row: Row) -> Result<(), OutOfMemory>
        ensures ok { OnOk result (self.new ≡ self.old ++ row ∷ []) }
        ensures err { OnErr result (self.new ≡ self.old) }
    {
        self.rows.reserve(1)?;
        if self.places.get(row.origin.as_slice()).is_none() {
            let origin = Vec::from_slice(alloc, row.origin.as_slice())?;
            self.places.insert(origin, self.rows.as_slice().len())?;
        }
        self.rows.push_reserved(row);
        Ok(())
    }
}
