//! The command `merge-base`.
ghost use Rattle.std.specs.Prelude.{IfErr, IfOk};
ghost use Rattle.gix_object.specs.Memory.{memory_objects};
ghost use Rattle.gixobj_cli_batch.specs.Walks.{IsFaultOfBases, IsMergeBaseError, PrintsMergeBases};

use crate::fault::Fault;
use crate::lines::lines_of_ids;
use crate::report::Report;
use gix_object::Memory;
use gix_object::hash::ObjectId;
use gixobj_walks_store::merge_bases;
use std::alloc::Global;

/// Lists the merge bases of two commits, a line for each (git-merge-base, `--all`). With none the error says so.
pub(crate) fn list_bases(
    alloc: Global,
    store: &Memory,
    one: ObjectId,
    other: ObjectId,
) -> Result<Report, Fault>
    ensures printed { IfOk result (λ report. PrintsMergeBases (memory_objects store.now) one other
        report.lines.items report.fault) }
    ensures error { IfErr result (IsMergeBaseError (memory_objects store.now) one other) }
{
    let bases = merge_bases(alloc, store, one, other)?;
    let lines = lines_of_ids(alloc, &bases)?;
    let fault = fault_of(&bases);
    Ok(Report { lines, fault })
}

/// Returns the error after the lines of merge bases, or `None` if there is a base.
fn fault_of(bases: &[ObjectId]) -> Option<Fault>
    ensures { IsFaultOfBases bases.now result }
{
    match bases {
        [] => Some(Fault::NoMergeBase),
        _ => None,
    }
}
