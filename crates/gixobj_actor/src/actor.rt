//! Actors: who made an object, and when (`git-commit-tree`, "Commit Information"; `git-fast-import`,
//! "author" and "committer").
ghost use Rattle.std.specs.Prelude.{◌≡◌, ◌≤◌, ◌<◌, ◌+◌, ◌-◌, ◌*◌, ◌^◌, ◌++◌, [], ℕ, List, length, IfErr, IfNone, IfOk};
ghost use Rattle.std.specs.Prelude.{IfSome, MatchBool, OnErr, OnOk, IsTrue, ◌↔◌, codes};
ghost use Rattle.std.specs.Io.KnownBytes.{Appends};
ghost use Rattle.std.specs.List.{AllPass};
ghost use Rattle.std.specs.Option.{SomeIff};
ghost use Rattle.bstr.specs.BStr.{bstr_bytes};
ghost use Rattle.bstr.specs.Owned.{bstring_bytes};
ghost use Rattle.gixobj_actor.specs.Actor.{EndsTime, IsActorLineOf, IsGap, IsNameOf, IsMalformedActorLine};
ghost use Rattle.gixobj_actor.specs.Actor.{IsTimeOrDefault, IsWritable, encode_actor, actor_view};
ghost use Rattle.gixobj_actor.specs.Actor.{is_time_byte as is_time_byte_of};
ghost use Rattle.gixobj_actor.specs.ActorWriting.{IsLegal, IsLegalActor, IsActorError, encode_borrowed_actor};
ghost use Rattle.gixobj_actor.specs.ActorWriting.{encode_owned_actor};
ghost use Rattle.gixobj_actor.specs.Date.{IsMalformedTime, DecodesToTime, encode_time};
ghost use Rattle.gixobj_streams.specs.Streams.{AppendsAll, AppendsPrefix, AppendsOrFails, writer_view};
ghost use Rattle.gixobj_hash.specs.declared.decode.Error.TheVariants.{Malformed};
ghost use Rattle.gixobj_streams.specs.Writing.{IsSize};
ghost use Rattle.gixobj_hash.specs.Bytes.{newline};
ghost use Rattle.gixobj_hash.specs.ByteStrings.{IsByteFree, trimmed};

use crate::date::{Time, TimeBuf, parse_header};
use bstr::{BStr, BString, ByteSlice};
use gixobj_hash::split::{has_byte, split_at_byte, split_at_last_byte};
use gixobj_hash::{OutOfMemory, decode};
use gixobj_streams::encode::Error;
use gixobj_streams::short::ShortString;
use gixobj_streams::streams::{Sink, ToWrite, write_parts};
use std::alloc::Global;
use std::io;
use std::io::Write;

/// An actor and a time, borrowed from a line. [`SignatureRef::from_bytes_consuming`] decodes one.
#[derive(Clone, Copy, Debug, PartialEq, Eq, PartialOrd, Ord, Hash)]
pub struct SignatureRef<'a> {
    /// The name. It may have white space at its ends, and a `>`.
    pub name: BStr<'a>,
    /// The email. It may have white space at its ends, and a `<` or a `>`.
    pub email: BStr<'a>,
    /// The bytes of the time: digits, `+`, `-`, spaces and tabs.
    ///
    /// They may be malformed; [`SignatureRef::time`] decodes them.
    pub time: BStr<'a>,
}

/// An actor and a time, owned. [`SignatureRef::to_owned`] makes one.
#[derive(Clone, Debug, Drop, PartialEq, Eq, PartialOrd, Ord, Hash)]
pub struct Signature {
    /// The name. A writer rejects it if it has a `<`, a `>` or a newline.
    pub name: BString,
    /// The email. A writer rejects it if it has a `<`, a `>` or a newline.
    pub email: BString,
    /// The time.
    pub time: Time,
}

/// Initialization
impl<'a> SignatureRef<'a> {
    /// Decodes the actor of a line, and leaves the bytes after its time in `input`.
    ///
    /// The name is before the first `<`, less one final space. The email follows, up to the last `>`. One
    /// space after it is skipped, if there is one. The time is the longest run of digits, `+`, `-`, spaces
    /// and tabs that follows.
    ///
    /// Allocates nothing.
    ///
    /// # Errors
    ///
    /// [`decode::Error::Malformed`] if the line has a newline, or has no `<` with a `>` after it. `input`
    /// is then unchanged.
    pub fn from_bytes_consuming(input: &mut &'a [u8]) -> Result<SignatureRef<'a>, decode::Error>
        ensures found { IfOk result (λ it.
            IsActorLineOf input.old.now (actor_view it) input.new.now) }
        ensures error { IfErr result (λ e. (e ≡ Malformed) × IsMalformedActorLine input.old.now) }
        ensures unchanged { OnErr result (input.new ≡ input.old) }
    {
        if has_byte(input, b'\n') {
            return Err(decode::Error::Malformed);
        }
        match split_line(input) {
            Some((actor, rest)) => {
                *input = rest;
                Ok(actor)
            }
            None => Err(decode::Error::Malformed),
        }
    }
}

/// Access
impl<'a> SignatureRef<'a> {
    /// Returns the actor without white space at the ends of name, email and time. White space is Unicode's.
    /// Allocates nothing.
    pub fn trim(&self) -> SignatureRef<'a>
        ensures name { bstr_bytes result.name ≡ trimmed (bstr_bytes self.now.name) }
        ensures email { bstr_bytes result.email ≡ trimmed (bstr_bytes self.now.email) }
        ensures time { bstr_bytes result.time ≡ trimmed (bstr_bytes self.now.time) }
    {
        SignatureRef {
            name: BStr::new(self.name.as_bytes().trim()),
            email: BStr::new(self.email.as_bytes().trim()),
            time: BStr::new(self.time.as_bytes().trim()),
        }
    }

    /// Decodes the time, or returns `None` if its bytes are malformed. Allocates nothing.
    pub fn time(&self) -> Option<Time>
        ensures found { IfSome result (λ it.
            DecodesToTime (bstr_bytes self.now.time) it.seconds it.offset) }
        ensures none { IfNone result (IsMalformedTime (bstr_bytes self.now.time)) }
    {
        parse_header(self.time.as_bytes())
    }
}

/// Conversion
impl<'a> SignatureRef<'a> {
    /// Copies the actor. A malformed time becomes the default one.
    ///
    /// Allocates the name and the email.
    ///
    /// # Errors
    ///
    /// [`OutOfMemory`] if the name or the email can't be allocated.
    pub fn to_owned(&self, alloc: Global) -> Result<Signature, OutOfMemory>
        ensures name { IfOk result (λ it. bstring_bytes it.name ≡ bstr_bytes self.now.name) }
        ensures email { IfOk result (λ it. bstring_bytes it.email ≡ bstr_bytes self.now.email) }
        ensures time { IfOk result (λ it. IsTimeOrDefault (bstr_bytes self.now.time) it.time) }
    {
        Ok(Signature {
            name: BString::from_slice(alloc, self.name.as_bytes())?,
            email: BString::from_slice(alloc, self.email.as_bytes())?,
            time: self.time_or_default(),
        })
    }

    /// Decodes the time, or returns the default one if its bytes are malformed.
    fn time_or_default(&self) -> Time
        ensures { IsTimeOrDefault (bstr_bytes self.now.time) result }
    {
        match self.time() {
            Some(time) => time,
            None => Time::default(),
        }
    }
}

/// Conversion
impl Signature {
    /// Borrows the actor. The time is encoded into the buffer, and the result borrows it from there.
    /// Allocates nothing.
    pub fn to_ref<'a>(&'a self, time_buf: &'a mut TimeBuf) -> SignatureRef<'a>
        ensures name { bstr_bytes result.name ≡ bstring_bytes self.now.name }
        ensures email { bstr_bytes result.email ≡ bstring_bytes self.now.email }
        ensures time { bstr_bytes result.time
            ≡ encode_time self.now.time.seconds self.now.time.offset }
    {
        SignatureRef {
            name: self.name.as_bstr(),
            email: self.email.as_bstr(),
            time: BStr::new(time_buf.bytes_of(self.time)),
        }
    }
}

/// Writing
impl SignatureRef<'_> {
    /// Encodes the actor and writes it: the name, ` <`, the email, `> ` and the bytes of the time.
    ///
    /// Only the writer may allocate.
    ///
    /// # Errors
    ///
    /// - [`Error::IllegalActor`] if the name or the email has a `<`, a `>` or a newline. Nothing is written
    ///   then.
    /// - [`Error::Writer`] with the error of the writer. A proper prefix of the encoding is written then.
    pub fn write_to<W: Write>(&self, out: &mut W) -> Result<(), Error>
        ensures written { OnOk result (IsLegalActor (bstr_bytes self.now.name)
            (bstr_bytes self.now.email) × Appends (W.contents out.old) (W.contents out.new)
            (encode_borrowed_actor self.now)) }
        ensures error { IfErr result (IsActorError (bstr_bytes self.now.name)
            (bstr_bytes self.now.email) (out.new ≡ out.old)
            (AppendsPrefix (writer_view (W.contents out.old)) (writer_view (W.contents out.new))
            (encode_borrowed_actor self.now))) }
    {
        self.write_into(&mut ToWrite(out))
    }

    /// Appends the encoding of [`SignatureRef::write_to`] to a sink. Only the sink may allocate.
    ///
    /// # Errors
    ///
    /// - [`Error::IllegalActor`] if the name or the email has a `<`, a `>` or a newline. The sink is then
    ///   unchanged.
    /// - [`Error::Writer`] with the error of the sink. A proper prefix of the encoding is appended then.
    pub fn write_into<S: Sink>(&self, sink: &mut S) -> Result<(), Error>
        ensures written { OnOk result (IsLegalActor (bstr_bytes self.now.name)
            (bstr_bytes self.now.email) × AppendsAll (S.view sink.old) (S.view sink.new)
            (encode_borrowed_actor self.now)) }
        ensures error { IfErr result (IsActorError (bstr_bytes self.now.name)
            (bstr_bytes self.now.email) (sink.new ≡ sink.old)
            (AppendsPrefix (S.view sink.old) (S.view sink.new) (encode_borrowed_actor self.now))) }
        ensures same_loan { S.loan sink.new ≡ S.loan sink.old }
    {
        if !self.is_legal() {
            return Err(Error::IllegalActor);
        }
        let (name, email) = (self.name.as_bytes(), self.email.as_bytes());
        write_actor(name, email, self.time.as_bytes(), sink)?;
        Ok(())
    }

    /// Returns whether the actor can be written.
    fn is_legal(&self) -> bool
        ensures { IsTrue result ↔ IsLegalActor (bstr_bytes self.now.name)
            (bstr_bytes self.now.email) }
    {
        is_writable(self.name.as_bytes()) && is_writable(self.email.as_bytes())
    }

    /// Returns the length of the encoded actor in bytes, or `None` if it exceeds 64 bits.
    ///
    /// An actor that [`SignatureRef::write_to`] rejects has a length too. Allocates nothing.
    pub fn size(&self) -> Option<u64>
        ensures { IsSize result (encode_borrowed_actor self.now) }
    {
        actor_size(
            self.name.as_bytes(),
            self.email.as_bytes(),
            self.time.as_bytes().len() as u64,
        )
    }
}

/// Writing
impl Signature {
    /// Encodes the actor and writes it: the name, ` <`, the email, `> ` and the encoded time.
    ///
    /// Only the writer may allocate.
    ///
    /// # Errors
    ///
    /// - [`Error::IllegalActor`] if the name or the email has a `<`, a `>` or a newline. Nothing is written
    ///   then.
    /// - [`Error::Writer`] with the error of the writer. A proper prefix of the encoding is written then.
    pub fn write_to<W: Write>(&self, out: &mut W) -> Result<(), Error>
        ensures written { OnOk result (IsLegalActor (bstring_bytes self.now.name)
            (bstring_bytes self.now.email)
            × Appends (W.contents out.old) (W.contents out.new) (encode_owned_actor self.now)) }
        ensures error { IfErr result (IsActorError (bstring_bytes self.now.name)
            (bstring_bytes self.now.email) (out.new ≡ out.old)
            (AppendsPrefix (writer_view (W.contents out.old)) (writer_view (W.contents out.new))
            (encode_owned_actor self.now))) }
    {
        let mut time_buf = TimeBuf::new();
        self.to_ref(&mut time_buf).write_to(out)
    }

    /// Appends the encoding of [`Signature::write_to`] to a sink. Only the sink may allocate.
    ///
    /// # Errors
    ///
    /// - [`Error::IllegalActor`] if the name or the email has a `<`, a `>` or a newline. The sink is then
    ///   unchanged.
    /// - [`Error::Writer`] with the error of the sink. A proper prefix of the encoding is appended then.
    pub fn write_into<S: Sink>(&self, sink: &mut S) -> Result<(), Error>
        ensures written { OnOk result (IsLegalActor (bstring_bytes self.now.name)
            (bstring_bytes self.now.email)
            × AppendsAll (S.view sink.old) (S.view sink.new) (encode_owned_actor self.now)) }
        ensures error { IfErr result (IsActorError (bstring_bytes self.now.name)
            (bstring_bytes self.now.email) (sink.new ≡ sink.old)
            (AppendsPrefix (S.view sink.old) (S.view sink.new) (encode_owned_actor self.now))) }
        ensures same_loan { S.loan sink.new ≡ S.loan sink.old }
    {
        self.write_with(b"", sink)
    }

    /// Appends the encoding of [`Signature::write_into`] and at most one byte after it, with its errors.
    /// The bytes after the email are appended in one call.
    pub(crate) fn write_with<S: Sink>(&self, terminator: &[u8], sink: &mut S) -> Result<(), Error>
        requires bounded { length terminator.now ≤ 1 }
        ensures written { OnOk result (IsLegal self.now
            × AppendsAll (S.view sink.old) (S.view sink.new) (encode_owned_actor self.now ++ terminator.now)) }
        ensures error { IfErr result (IsActorError (bstring_bytes self.now.name)
            (bstring_bytes self.now.email) (sink.new ≡ sink.old)
            (AppendsPrefix (S.view sink.old) (S.view sink.new) (encode_owned_actor self.now ++ terminator.now))) }
        ensures same_loan { S.loan sink.new ≡ S.loan sink.old }
    {
        let (name, email) = (self.name.as_bytes(), self.email.as_bytes());
        if !(is_writable(name) && is_writable(email)) {
            return Err(Error::IllegalActor);
        }
        let mut end = ShortString::new();
        push_end_of_line(self.time, terminator, &mut end);
        write_with_terminator(name, email, end.as_bytes(), sink)?;
        Ok(())
    }

    /// Returns the length of the encoded actor in bytes, or `None` if it exceeds 64 bits.
    ///
    /// An actor that [`Signature::write_to`] rejects has a length too. Allocates nothing.
    pub fn size(&self) -> Option<u64>
        ensures { IsSize result (encode_owned_actor self.now) }
    {
        actor_size(
            self.name.as_bytes(),
            self.email.as_bytes(),
            self.time.encoded_len(),
        )
    }
}

/// Returns whether a name or an email can be written: it lacks `<`, `>` and newlines. The three searches
/// are independent.
fn is_writable(content: &[u8]) -> bool
    ensures { IsTrue result ↔ IsWritable content.now }
{
    let has_less = content.contains(&b'<');
    let has_greater = content.contains(&b'>');
    let has_newline = content.contains(&b'\n');
    !(has_less || has_greater || has_newline)
}

/// Appends a name, ` <`, an email, and the end of an actor's line, without validation.
fn write_with_terminator<S: Sink>(
    name: &[u8],
    email: &[u8],
    end: &[u8],
    sink: &mut S,
) -> io::Result<()>
    ensures appended { AppendsOrFails result (S.view sink.old) (S.view sink.new)
        (name.now ++ codes " <" ++ email.now ++ end.now) }
    ensures same_loan { S.loan sink.new ≡ S.loan sink.old }
{
    write_parts(&[name, b" <", email, end], sink)
}

/// Stores the end of an actor's line in an empty buffer: `> `, the encoded time, and these bytes.
fn push_end_of_line(time: Time, terminator: &[u8], end: &mut ShortString)
    requires bounded { length terminator.now ≤ 1 }
    requires empty { end.old ≡ [] }
    ensures { end.new ≡ codes "> " ++ encode_time time.seconds time.offset ++ terminator.now }
{
    end.extend(b"> ");
    time.push_encoded(end);
    end.extend(terminator);
}

/// Appends an actor without validation.
fn write_actor<S: Sink>(name: &[u8], email: &[u8], time: &[u8], sink: &mut S) -> io::Result<()>
    ensures appended { AppendsOrFails result (S.view sink.old) (S.view sink.new)
        (encode_actor name.now email.now time.now) }
    ensures same_loan { S.loan sink.new ≡ S.loan sink.old }
{
    write_parts(&[name, b" <", email, b"> ", time], sink)
}

/// Returns the length of an actor whose time has this length, or `None` if it exceeds 64 bits.
fn actor_size(name: &[u8], email: &[u8], time_len: u64) -> Option<u64>
    requires has_capacity { time_len < 2 ^ 63 }
    ensures { SomeIff result (length name.now + length email.now + time_len + 4 < 2 ^ 64)
        (length name.now + length email.now + time_len + 4) }
{
    let encodings = name.len() as u64 + email.len() as u64;
    encodings.checked_add(time_len + 4)
}

/// Decodes the actor of a line, and returns it with the bytes after its time.
pub(crate) fn split_line(line: &[u8]) -> Option<(SignatureRef<'_>, &[u8])>
    requires one_line { IsByteFree newline line.now }
    ensures found { IfSome result (λ it. IsActorLineOf line.now (actor_view it.0) it.1.now) }
    ensures none { IfNone result (IsMalformedActorLine line.now) }
{
    let (content, after_less_than) = split_at_byte(line, b'<')?;
    let (email, after) = split_at_last_byte(after_less_than, b'>')?;
    let (time, rest) = split_time(without_gap(after));
    let actor = SignatureRef {
        name: BStr::new(without_final_space(content)),
        email: BStr::new(email),
        time: BStr::new(time),
    };
    Some((actor, rest))
}

/// Returns the bytes without one final space.
fn without_final_space(content: &[u8]) -> &[u8]
    ensures { IsNameOf content.now result.now }
{
    match content {
        [name @ .., b' '] => name,
        _ => content,
    }
}

/// Returns the bytes without one space at their beginning.
fn without_gap(content: &[u8]) -> &[u8]
    ensures { (gap : List ℕ) × (content.now ≡ gap ++ result.now) × IsGap gap result.now }
{
    match content.split_first() {
        Some((b' ', rest)) => rest,
        _ => content,
    }
}

/// Splits the longest prefix of time bytes from the rest.
fn split_time(content: &[u8]) -> (&[u8], &[u8])
    ensures joined { content.now ≡ result.0.now ++ result.1.now }
    ensures time { AllPass is_time_byte_of result.0.now }
    ensures ends { EndsTime result.1.now }
{
    let len = content
        .iter()
        .position(|byte| !is_time_byte(*byte))
        .unwrap_or(content.len());
    content.split_at(len)
}

/// Returns whether the byte may occur in a time.
fn is_time_byte(byte: u8) -> bool
    ensures { result ≡ is_time_byte_of byte }
{
    byte.is_ascii_digit() || matches!(byte, b'+' | b'-' | b' ' | b'\t')
}
