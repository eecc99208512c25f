//! Decodes actors that fill their line, and copies them.
ghost use Rattle.std.specs.Prelude.{◌≡◌, ℕ, List, IfErr, IfNone, IfOk, IfSome};
ghost use Rattle.bstr.specs.BStr.{bstr_bytes};
ghost use Rattle.gixobj_actor.specs.Actor.{IsActorLineOf, IsActorOf, IsNoActor, IsMalformedActorLine, IsOwnedActor};
ghost use Rattle.gixobj_actor.specs.Actor.{IsTrimmedActor, actor_view};
ghost use Rattle.gixobj_hash.specs.declared.decode.Error.TheVariants.{Malformed};
ghost use Rattle.gixobj_hash.specs.Bytes.{newline};
ghost use Rattle.gixobj_hash.specs.ByteStrings.{IsByteFree};

use crate::actor::{Signature, SignatureRef, split_line};
use bstr::BStr;
use gixobj_hash::OutOfMemory;
use gixobj_hash::decode::Error;
use gixobj_hash::split::has_byte;
use std::alloc::Global;

/// Decodes the actor that fills a line.
///
/// Returns `None` if the line is malformed or bytes follow the time. Allocates nothing.
pub fn signature(line: &[u8]) -> Option<SignatureRef<'_>>
    ensures found { IfSome result (λ it. IsActorOf line.now (actor_view it)) }
    ensures none { IfNone result (IsNoActor line.now) }
{
    if has_byte(line, b'\n') {
        return None;
    }
    signature_of_line(line)
}

/// Decodes the actor that fills a line, which has no newline by the contract.
///
/// Returns `None` if the line is malformed or bytes follow the time. Allocates nothing.
pub fn signature_of_line(line: &[u8]) -> Option<SignatureRef<'_>>
    requires one_line { IsByteFree newline line.now }
    ensures found { IfSome result (λ it. IsActorOf line.now (actor_view it)) }
    ensures none { IfNone result (IsNoActor line.now) }
{
    let Some((actor, rest)) = split_line(line) else {
        return None;
    };
    if rest.is_empty() { Some(actor) } else { None }
}

/// Decodes the actor at the beginning of a line, which has no newline by the contract.
///
/// Returns the actor and the bytes after its time, or `None` if the line is malformed. Allocates nothing.
pub fn split_signature(line: &[u8]) -> Option<(SignatureRef<'_>, &[u8])>
    requires one_line { IsByteFree newline line.now }
    ensures found { IfSome result (λ it. IsActorLineOf line.now (actor_view it.0) it.1.now) }
    ensures none { IfNone result (IsMalformedActorLine line.now) }
{
    split_line(line)
}

/// Decodes the actor that fills a line, untrimmed. Allocates nothing.
///
/// # Errors
///
/// [`Error::Malformed`] if the line is malformed or bytes follow the time.
pub fn actor_of_line(line: BStr<'_>) -> Result<SignatureRef<'_>, Error>
    ensures found { IfOk result (λ it. IsActorOf (bstr_bytes line.entry) (actor_view it)) }
    ensures error { IfErr result (λ e. (e ≡ Malformed) × IsNoActor (bstr_bytes line.entry)) }
{
    match signature(line.as_bytes()) {
        Some(actor) => Ok(actor),
        None => Err(Error::Malformed),
    }
}

/// Decodes the actor that fills a line, without white space at the ends of name, email and time.
///
/// Allocates nothing.
///
/// # Errors
///
/// [`Error::Malformed`] if the line is malformed or bytes follow the time.
pub fn trimmed_actor(line: BStr<'_>) -> Result<SignatureRef<'_>, Error>
    ensures found { IfOk result (IsTrimmedActor (bstr_bytes line.entry)) }
    ensures error { IfErr result (λ e. (e ≡ Malformed) × IsNoActor (bstr_bytes line.entry)) }
{
    let actor = actor_of_line(line)?;
    Ok(actor.trim())
}

/// Copies an actor, untrimmed, with its decoded time. A malformed time becomes the default one.
///
/// Allocates the name and the email.
///
/// # Errors
///
/// [`OutOfMemory`] if the name or the email can't be allocated.
pub fn owned_actor(alloc: Global, actor: SignatureRef<'_>) -> Result<Signature, OutOfMemory>
    ensures { IfOk result (λ it. (line : List ℕ) → IsActorOf line (actor_view actor.entry)
        → IsOwnedActor line it) }
{
    actor.to_owned(alloc)
}
