//! Actors from their fields: illegal names, copies, order, and failing writers.

use crate::helpers::holds;
use crate::limited::Limited;
use bstr::BStr;
use gixobj_base::actor::SignatureRef;
use gixobj_base::date::TimeBuf;
use gixobj_base::encode::Error;
use std::alloc::Global;

/// Returns whether the actor was rejected.
fn is_illegal(outcome: Result<(), Error>) -> bool {
    matches!(&outcome, Err(Error::IllegalActor))
}

#[test]
fn rejects_newline_in_name(rt: HostRuntime) {
    let actor = SignatureRef {
        name: BStr::new(b"A\nB"),
        email: BStr::new(b"a@b"),
        time: BStr::new(b"0 +0000"),
    };
    let mut out = Vec::new(rt.alloc());
    assert!(rt; is_illegal(actor.write_to(&mut out)));
    let owned = actor.to_owned(rt.alloc());
    assert!(rt; holds!(&owned, Ok(it) => is_illegal(it.write_to(&mut out))));
    assert!(rt; out.is_empty());
}

/// Returns whether `to_owned`, `to_ref` and `clone` leave an actor unchanged.
fn is_kept(alloc: Global, actor: &SignatureRef<'_>) -> bool {
    let Ok(owned) = actor.to_owned(alloc) else {
        return false;
    };
    let mut buf = TimeBuf::new();
    owned.to_ref(&mut buf) == *actor && holds!(owned.clone(), Ok(copy) => copy == owned)
}

#[test]
fn owned_copies_keep_fields(rt: HostRuntime) {
    let actor = SignatureRef {
        name: BStr::new(b"A"),
        email: BStr::new(b"a@b"),
        time: BStr::new(b"1 +0530"),
    };
    assert!(rt; is_kept(rt.alloc(), &actor));
    let later = SignatureRef {
        time: BStr::new(b"1 +0531"),
        ..actor
    };
    assert!(rt; actor < later);
}

#[test]
fn returns_writer_error_after_each_prefix(rt: HostRuntime) {
    let line: &[u8] = b"A <a@b> 1 +0530";
    let actor = SignatureRef {
        name: BStr::new(b"A"),
        email: BStr::new(b"a@b"),
        time: BStr::new(b"1 +0530"),
    };
    for room in 0..=line.len() {
        let held = Vec::new(rt.alloc());
        let mut writer = Limited { held, room };
        let outcome = actor.write_to(&mut writer);
        let stopped = writer.stopped_at(&outcome, line, room);
        assert!(rt; stopped == (room < line.len()), "{room}");
    }
}
