//! The command that the arguments of the program name.
ghost use Rattle.std.specs.Prelude.{[], ◌∷◌, ◌≡◌, ◌≢◌, ◌++◌, IfErr, IfNone, IfSome, codes, map};
ghost use Rattle.std.specs.String.{string_bytes};
ghost use Rattle.gixobj_cli_batch.specs.Arguments.{AreWalkArguments, IsArgumentsError, IsHiddenArgument};
ghost use Rattle.gixobj_cli_batch.specs.Arguments.{IsIdArgument, NamesCommand, NamesNoCommand, NamesNoHiddenId};
ghost use Rattle.gixobj_cli_batch.specs.Arguments.{NamesNoId, NamesNoWalk, NamesNoOrder, order_arguments};
ghost use Rattle.gixobj_walks_graph.specs.declared.order.Order.TheVariants.{Date};

use crate::fault::Fault;
use gix_object::hash::ObjectId;
use gixobj_walks_graph::Order;
use std::env;
use std::rt::Env;

/// A command of the program.
#[derive(Clone, Copy)]
pub(crate) enum Command {
    /// The log of a commit.
    Log(ObjectId),
    /// The files of a commit or a tree.
    List(ObjectId),
    /// The changes from a commit or a tree to another.
    Diff(ObjectId, ObjectId),
    /// The merge bases of two commits.
    MergeBase(ObjectId, ObjectId),
    /// The commits that a commit reaches and a hidden one doesn't.
    RevList {
        /// The order of the commits.
        order: Order,
        /// The commit that reaches them, or a tag of it.
        tip: ObjectId,
        /// The hidden commit, or a tag of it; or `None`.
        hidden: Option<ObjectId>,
    },
    /// The faults of the objects, and git's findings about them, in a check that is strict or not.
    Check(bool),
}

/// Returns the arguments of the process, those after its name. The list of arguments allocates.
///
/// # Errors
///
/// - [`Fault::Failed`] if a read of the arguments fails, for example if one isn't UTF-8;
/// - [`Fault::OutOfMemory`] if the allocation of the list fails.
pub(crate) fn process_arguments<R: Env + AllocGlobal>(rt: &R) -> Result<Vec<String>, Fault>
    ensures { IfErr result IsArgumentsError }
{
    let mut remaining = env::args(rt)?;
    let _ = remaining.next();
    Ok(remaining.collect(rt.alloc())?)
}

/// Returns the command that the arguments name, or `None`. An id is in hex, of either case.
pub(crate) fn command_of(arguments: &[String]) -> Option<Command>
    ensures found { IfSome result (NamesCommand (map string_bytes arguments.now)) }
    ensures none { IfNone result (NamesNoCommand (map string_bytes arguments.now)) }
{
    let (name, rest) = arguments.split_first()?;
    if name.as_str() == "rev-list" {
        return rev_list_of(rest);
    }
    match rest {
        [] => command_alone(name),
        [argument] => command_of_pair(name, argument),
        [first, second] => command_of_ids(name, first, second),
        _ => None,
    }
}

/// Returns the command that a name alone names, or `None`.
fn command_alone(name: &String) -> Option<Command>
    requires { string_bytes name.now ≢ codes "rev-list" }
    ensures found { IfSome result (NamesCommand (string_bytes name.now ∷ [])) }
    ensures none { IfNone result (NamesNoCommand (string_bytes name.now ∷ [])) }
{
    if name.as_str() == "check" {
        return Some(Command::Check(false));
    }
    None
}

/// Returns the command that a name and another argument name, or `None`.
fn command_of_pair(name: &String, argument: &String) -> Option<Command>
    requires { string_bytes name.now ≢ codes "rev-list" }
    ensures found { IfSome result
        (NamesCommand (string_bytes name.now ∷ string_bytes argument.now ∷ [])) }
    ensures none { IfNone result
        (NamesNoCommand (string_bytes name.now ∷ string_bytes argument.now ∷ [])) }
{
    if name.as_str() == "check" {
        return strict_check(argument);
    }
    command_of_id(name, argument)
}

/// Returns the command `check` with this argument, or `None`.
fn strict_check(argument: &String) -> Option<Command>
    ensures found { IfSome result
        (NamesCommand (codes "check" ∷ string_bytes argument.now ∷ [])) }
    ensures none { IfNone result
        (NamesNoCommand (codes "check" ∷ string_bytes argument.now ∷ [])) }
{
    if argument.as_str() == "--strict" {
        return Some(Command::Check(true));
    }
    None
}

/// Returns the command that a name and an id name, or `None`. The name isn't `check`.
fn command_of_id(name: &String, id: &String) -> Option<Command>
    requires known { string_bytes name.now ≢ codes "rev-list" }
    requires other { string_bytes name.now ≢ codes "check" }
    ensures found { IfSome result
        (NamesCommand (string_bytes name.now ∷ string_bytes id.now ∷ [])) }
    ensures none { IfNone result
        (NamesNoCommand (string_bytes name.now ∷ string_bytes id.now ∷ [])) }
{
    let id = id_of(id)?;
    if name.as_str() == "log" {
        return Some(Command::Log(id));
    }
    if name.as_str() == "ls" {
        return Some(Command::List(id));
    }
    None
}

/// Returns the command that a name and two ids name, or `None`.
fn command_of_ids(name: &String, first: &String, second: &String) -> Option<Command>
    requires { string_bytes name.now ≢ codes "rev-list" }
    ensures found { IfSome result (NamesCommand
        (string_bytes name.now ∷ string_bytes first.now ∷ string_bytes second.now ∷ [])) }
    ensures none { IfNone result (NamesNoCommand
        (string_bytes name.now ∷ string_bytes first.now ∷ string_bytes second.now ∷ [])) }
{
    let first = id_of(first)?;
    let second = id_of(second)?;
    if name.as_str() == "diff" {
        return Some(Command::Diff(first, second));
    }
    if name.as_str() == "merge-base" {
        return Some(Command::MergeBase(first, second));
    }
    None
}

/// Returns the command `rev-list` with these arguments, or `None`.
#[tactic(auto, using(crate::proofs::WalkArguments::no_rev_list))]
fn rev_list_of(arguments: &[String]) -> Option<Command>
    ensures found { IfSome result
        (NamesCommand (codes "rev-list" ∷ map string_bytes arguments.now)) }
    ensures none { IfNone result
        (NamesNoCommand (codes "rev-list" ∷ map string_bytes arguments.now)) }
{
    let (order, ids) = order_of(arguments);
    let (tip, hidden) = tip_and_hidden(ids)?;
    Some(Command::RevList { order, tip, hidden })
}

/// Returns the order that the first argument names, by date if it names none, and the arguments after it.
fn order_of(arguments: &[String]) -> (Order, &[String])
    ensures order { map string_bytes arguments.now
        ≡ order_arguments result.0 ++ map string_bytes result.1.now }
    ensures none { result.0 ≡ Date → NamesNoOrder (map string_bytes arguments.now) }
{
    match arguments.split_first() {
        Some((first, rest)) if first.as_str() == "--topo-order" => (Order::Topological, rest),
        _ => (Order::Date, arguments),
    }
}

/// Returns the tip of a walk, and the hidden id after it or `None`; or `None` if the arguments are others.
fn tip_and_hidden(arguments: &[String]) -> Option<(ObjectId, Option<ObjectId>)>
    ensures found { IfSome result (λ ids. AreWalkArguments (map string_bytes arguments.now)
        ids.0 ids.1) }
    ensures none { IfNone result (NamesNoWalk (map string_bytes arguments.now)) }
{
    match arguments {
        [tip] => Some((id_of(tip)?, None)),
        [tip, hidden] => tip_with_hidden(tip, hidden),
        _ => None,
    }
}

/// Returns the tip of a walk and the hidden id after it, or `None` if the arguments are others.
#[tactic(auto, using(crate::proofs::WalkArguments::no_walk_without_hidden))]
fn tip_with_hidden(tip: &String, hidden: &String) -> Option<(ObjectId, Option<ObjectId>)>
    ensures found { IfSome result (λ ids. AreWalkArguments
        (string_bytes tip.now ∷ string_bytes hidden.now ∷ []) ids.0 ids.1) }
    ensures none { IfNone result
        (NamesNoWalk (string_bytes tip.now ∷ string_bytes hidden.now ∷ [])) }
{
    let tip = id_of(tip)?;
    let hidden = hidden_id_of(hidden)?;
    Some((tip, Some(hidden)))
}

/// Returns the id after the `^` of an argument, or `None` if it is no `^` and hex of an id.
fn hidden_id_of(argument: &String) -> Option<ObjectId>
    ensures found { IfSome result (IsHiddenArgument (string_bytes argument.now)) }
    ensures none { IfNone result (NamesNoHiddenId (string_bytes argument.now)) }
{
    match argument.as_bytes() {
        [b'^', hex @ ..] => ObjectId::from_hex(hex),
        _ => None,
    }
}

/// Returns the id of an argument, or `None` if it is no hex of an id.
fn id_of(argument: &String) -> Option<ObjectId>
    ensures found { IfSome result (IsIdArgument (string_bytes argument.now)) }
    ensures none { IfNone result (NamesNoId (string_bytes argument.now)) }
{
    ObjectId::from_hex(argument.as_bytes())
}
