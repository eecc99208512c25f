//! The command `rev-list`.
ghost use Rattle.std.specs.Prelude.{IfErr, IfOk};
ghost use Rattle.gix_object.specs.Memory.{memory_objects};
ghost use Rattle.gixobj_cli_batch.specs.Walks.{ArePeeledOption, IsPeelOptionError, IsRevListError, PrintsRevList};

use crate::fault::Fault;
use crate::lines::lines_of_ids;
use crate::report::Report;
use gix_object::Memory;
use gix_object::hash::ObjectId;
use gixobj_walks_graph::Order;
use gixobj_walks_store::{WalkError, list_commits, peel_to_commits};
use std::alloc::Global;

/// The maximum number of tags that are followed from an id.
const MAX_TAGS: u32 = 64;

/// Lists the commits that a tip reaches and a hidden commit doesn't, a line for each (git-rev-list, `--date-order`,
/// `--topo-order`). The ids are of commits, or of tags that lead to them.
pub(crate) fn list_walk(
    alloc: Global,
    store: &Memory,
    order: Order,
    tip: ObjectId,
    hidden: Option<ObjectId>,
) -> Result<Report, Fault>
    ensures printed { IfOk result (λ report. PrintsRevList (memory_objects store.now) order tip
        hidden report.lines.items report.fault) }
    ensures error { IfErr result (IsRevListError (memory_objects store.now) tip hidden) }
{
    let tips = peel_to_commits(alloc, store, &[tip], MAX_TAGS)?;
    let hides = peel_option(alloc, store, hidden)?;
    let ids = list_commits(alloc, store, &tips, &hides, order)?;
    let lines = lines_of_ids(alloc, &ids)?;
    let fault = None;
    Ok(Report { lines, fault })
}

/// Returns the commit that an id names, itself or through tags; or none, for a tree, a blob or no id.
fn peel_option(
    alloc: Global,
    store: &Memory,
    id: Option<ObjectId>,
) -> Result<Vec<ObjectId>, WalkError>
    ensures peeled { IfOk result (λ commits. ArePeeledOption (memory_objects store.now) id
        commits.items) }
    ensures error { IfErr result (IsPeelOptionError (memory_objects store.now) id) }
{
    match id {
        Some(id) => peel_to_commits(alloc, store, &[id], MAX_TAGS),
        None => Ok(Vec::new(alloc)),
    }
}
