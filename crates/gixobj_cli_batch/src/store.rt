//! The store of the objects of the input.
ghost use Rattle.std.specs.Prelude.{◌≡◌, IfOk, OnOk, map};
ghost use Rattle.gix_object.specs.Memory.{memory_objects};
ghost use Rattle.gixobj_cli_batch.specs.Objects.{objects_of, with_record};
ghost use Rattle.gixobj_records.specs.Records.{record_view};

use gix_object::{Memory, OutOfMemory};
use gixobj_records::Record;
use std::alloc::Global;

/// Makes a store of the objects. If two records have one id, the later one counts. Allocates copies of the objects.
pub(crate) fn store_of(alloc: Global, records: &[Record<'_>]) -> Result<Memory, OutOfMemory>
    ensures { IfOk result (λ store.
        memory_objects store ≡ objects_of (map record_view records.now)) }
{
    let mut store = Memory::new(alloc);
    for it in records {
        insert_record(&mut store, it)?;
    }
    Ok(store)
}

/// Inserts the object of a record, if it has one.
fn insert_record(store: &mut Memory, it: &Record<'_>) -> Result<(), OutOfMemory>
    ensures { OnOk result (memory_objects store.new
        ≡ with_record (memory_objects store.old) (record_view it.now)) }
{
    match it {
        Record::Object { id, kind, content } => store.insert_known(*id, *kind, content),
        Record::Missing { .. } => Ok(()),
    }
}
