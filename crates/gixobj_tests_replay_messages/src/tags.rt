//! Answers about tags and their names. Many rows are tags that git shows.
ghost use Rattle.gixobj_codec.specs.Hash.{IsIdHex};
ghost use Rattle.gixobj_codec.specs.TagViews.{tag_lines};

use bstr::BStr;
use gixobj_base::actor::SignatureRef;
use gixobj_base::date::TimeBuf;
use gixobj_base::hash::ObjectId;
use gixobj_base::{Kind, WriteTo, compute_hash, decode, encode, hash};
use gixobj_codec::tag::ref_iter::Token;
use gixobj_codec::tag::write;
use gixobj_codec::{Tag, TagRef, TagRefIter};
use gixobj_tests_recorded::actors::{add_actor, write_actor, write_owned_actor};
use gixobj_tests_recorded::answer::{Answer, Form, Prefix};
use gixobj_tests_recorded::fields::{
    bytes_and_kind, fault, kind_and_bytes, name_fault, outcome_keyword, split_at_first, yes_or_no,
};
use gixobj_tests_recorded::objects::{encoded, write_encoding, write_sizes};

/// Answers with a decoded tag, its encoding and its owned form.
pub(crate) fn tag_answer(question: &[u8], answer: &mut Answer) {
    let (bytes, hash_kind) = bytes_and_kind(question, answer);
    let tag = TagRef::from_bytes(bytes.as_slice(), hash_kind);
    answer.write_result("whole", &tag);
    if let Ok(tag) = tag {
        write_fields(&tag, tag.target(), answer);
        write_encoding(&tag, answer);
        write_sizes(&tag, answer);
        write_owned(tag.into_owned(answer.alloc), answer);
    }
}

/// The columns of the tagger of an owned tag, and of its encoding.
fn write_owned(owned: Result<Tag, decode::Error>, answer: &mut Answer) {
    answer.write_result("owned", &owned);
    if let Ok(owned) = &owned {
        answer.prefix = Prefix::Owned;
        match &owned.tagger {
            Some(actor) => write_owned_actor("tagger", actor, answer),
            None => answer.write_pair("tagger", "-"),
        }
        write_encoding(owned, answer);
        write_sizes(owned, answer);
    }
}

/// The columns of all fields.
fn write_fields(tag: &TagRef<'_>, target: ObjectId, answer: &mut Answer) {
    answer.write_bytes("target", tag.target.as_bytes());
    answer.add_shown(target);
    answer.write_shown("target-kind", tag.target_kind);
    answer.write_bytes("name", tag.name.as_bytes());
    answer.write_if_some("tagger", tag.tagger);
    write_tagger("tagger-trim", tag.tagger(), answer);
    answer.write_bytes("message", tag.message.as_bytes());
    answer.write_if_some("signature", tag.signature);
    write_signature("signature-format", tag, Form::Hex, "none", answer);
}

/// The column of a tagger, of a missing one, or of the error of its line.
fn write_tagger(
    token: &str,
    tagger: Result<Option<SignatureRef<'_>>, decode::Error>,
    answer: &mut Answer,
) {
    answer.write(token);
    match tagger {
        Ok(Some(actor)) => {
            answer.add("ok");
            add_actor(actor, answer);
        }
        Ok(None) => answer.add("none"),
        Err(error) => answer.add(fault(&error)),
    }
}

/// The column of a signature's format and bytes, or of a missing one.
fn write_signature(token: &str, tag: &TagRef<'_>, form: Form, none: &str, answer: &mut Answer) {
    match tag.signature() {
        Some(signature) => {
            let format = signature.format;
            answer.write_shown(token, format_args!("{format:?}"));
            answer.add_in(form, signature.bytes.as_bytes());
        }
        None => answer.write_pair(token, none),
    }
}

/// Answers with the tokens of a tag, and the calls on its iterator.
pub(crate) fn tag_token_answer(question: &[u8], answer: &mut Answer) {
    let (bytes, hash_kind) = bytes_and_kind(question, answer);
    let tokens = TagRefIter::from_bytes(bytes.as_slice(), hash_kind);
    answer.prefix = Prefix::Token;
    for token in tokens {
        match token {
            Ok(token) => write_token(token, answer),
            Err(error) => answer.write(fault(&error)),
        }
    }
    answer.prefix = Prefix::Empty;
    answer.write("end");
    write_calls(tokens, answer);
}

/// The columns of the calls on an iterator.
fn write_calls(tokens: TagRefIter<'_>, answer: &mut Answer) {
    answer.write_id("iter-target-id", tokens.target_id());
    write_tagger("iter-tagger", tokens.tagger(), answer);
}

/// The column of a token: its name and its value.
fn write_token(token: Token<'_>, answer: &mut Answer) {
    match token {
        Token::Target { id } => answer.write_shown("target", id),
        Token::TargetKind(kind) => answer.write_shown("kind", kind),
        Token::Name(name) => answer.write_bytes("name", name.as_bytes()),
        Token::Tagger(Some(actor)) => write_actor("tagger", actor, answer),
        Token::Tagger(None) => answer.write_pair("tagger", "none"),
        Token::Body { message, signature } => {
            answer.write_bytes("body", message.as_bytes());
            answer.add_if_some(signature);
        }
    }
}

/// Answers with the result of `validated_name` for a name.
pub(crate) fn name_answer(question: &[u8], answer: &mut Answer) {
    let bytes = answer.input(question);
    match write::validated_name(BStr::new(bytes.as_slice())) {
        Ok(name) if name.as_bytes() == bytes.as_slice() => answer.write("ok"),
        Ok(_) => answer.write("ok another"),
        Err(failure) => answer.write(rejected_name(failure)),
    }
}

/// The error of a name, which is also the error of the writer.
fn rejected_name(failure: write::Error) -> &'static str {
    let token = match failure {
        write::Error::StartsWithDash => "err StartsWithDash",
        write::Error::InvalidRefName(fault) => name_fault(fault),
    };
    let of_writer = outcome_keyword(Err(encode::Error::from(failure)));
    if of_writer == token {
        token
    } else {
        "err another"
    }
}

/// Answers as git does for a name in a full reference name, with the rule of `git tag` on a leading dash.
pub(crate) fn git_name_answer(question: &[u8], answer: &mut Answer) {
    let name = answer.unescape(question);
    match write::validated_name(BStr::new(name.as_slice())) {
        Ok(_) => answer.write("ok"),
        Err(write::Error::StartsWithDash) => answer.write("ok\tdash"),
        Err(write::Error::InvalidRefName(_)) => answer.write("bad"),
    }
}

/// Answers with a tag: decoded, iterated, encoded and copied. The question is the kind of ids and the
/// encoding.
pub(crate) fn git_tag_answer(question: &[u8], answer: &mut Answer) {
    let (hash_kind, bytes) = kind_and_bytes(question, answer);
    let input = bytes.as_slice();
    let tokens = TagRefIter::from_bytes(input, hash_kind);
    answer.write_shown("id", compute_hash(hash_kind, Kind::Tag, input));
    let tag = TagRef::from_bytes(input, hash_kind);
    answer.write_result("read", &tag);
    if let Ok(tag) = tag {
        write_shown(&tag, tag.target(), answer);
        write_seen(&tag, tag.target(), tokens, answer);
        write_both_written(tag, hash_kind, answer);
    }
    write_token_names(tokens, answer);
    write_calls(tokens, answer);
}

/// The column of the names of the tokens, with `more` if the iterator goes on after its end.
fn write_token_names(mut tokens: TagRefIter<'_>, answer: &mut Answer) {
    answer.write("told");
    while let Some(token) = tokens.next() {
        answer.add(token_name(&token));
    }
    if tokens.next().is_some() {
        answer.add("more");
    }
}

/// The column of what git shows of a tag: target, kind, name and the tagger's line, each on a line. The
/// content follows from its first line that isn't empty.
fn write_shown(tag: &TagRef<'_>, target: ObjectId, answer: &mut Answer) {
    let kind = tag.target_kind;
    answer.write_shown("shown", format_args!("\"{target}\\n{kind}\\n"));
    answer.push_escaped(tag.name.as_bytes());
    answer.push(b"\\n");
    answer.push_escaped(tag.tagger.unwrap_or(BStr::new(b"")).as_bytes());
    answer.push(b"\\n");
    let message = without_first_newlines(tag.message.as_bytes());
    answer.push_escaped(message);
    match tag.signature {
        Some(signature) if message.is_empty() => {
            answer.push_escaped(without_first_newlines(signature.as_bytes()));
        }
        Some(signature) => {
            answer.push(b"\\n");
            answer.push_escaped(signature.as_bytes());
        }
        None => {}
    }
    answer.push(b"\"");
}

/// The bytes after the leading newlines.
fn without_first_newlines(input: &[u8]) -> &[u8] {
    let start = input.iter().position(|byte| *byte != b'\n');
    input.get(start.unwrap_or(input.len())..).unwrap_or(b"")
}

/// The columns of the tagger that the iterator yields, as git shows it; of the signature and the message; and
/// whether the iterator yields the decoded fields.
fn write_seen(tag: &TagRef<'_>, target: ObjectId, tokens: TagRefIter<'_>, answer: &mut Answer) {
    let mut decoded = answer.part();
    write_decoded(tag, target, &mut decoded);
    let mut seen = answer.part();
    let tagger = write_yielded(tokens, &mut seen);
    match tagger {
        Some(actor) => write_lines(actor, answer),
        None => answer.write_pair("tagger", "\"\\n\\n\""),
    }
    write_signature("signature", tag, Form::Quoted, "-", answer);
    answer.write_in(Form::Quoted, "message", tag.message.as_bytes());
    write_tagger("tagger-trim", tag.tagger(), answer);
    let same = seen.as_slice() == decoded.as_slice() && is_tagger_of(tag, tagger);
    answer.write_pair("same-told", yes_or_no(same));
}

/// The columns of the fields of a decoded tag, as tokens, without the tagger and an empty body.
fn write_decoded(tag: &TagRef<'_>, target: ObjectId, answer: &mut Answer) {
    let (message, signature) = (tag.message, tag.signature);
    write_token(Token::Target { id: target }, answer);
    write_token(Token::TargetKind(tag.target_kind), answer);
    write_token(Token::Name(tag.name), answer);
    if !message.as_bytes().is_empty() || signature.is_some() {
        write_token(Token::Body { message, signature }, answer);
    }
}

/// The columns of the tokens, without the tagger and an empty body. Returns the tagger.
fn write_yielded<'a>(tokens: TagRefIter<'a>, answer: &mut Answer) -> Option<SignatureRef<'a>> {
    let mut tagger = None;
    for token in tokens {
        match token {
            Ok(Token::Tagger(actor)) => tagger = actor,
            Ok(
                Token::Body {
                    message,
                    signature: None,
                },
            ) if message.as_bytes().is_empty() => {}
            Ok(token) => write_token(token, answer),
            Err(_) => {}
        }
    }
    tagger
}

/// Whether a yielded tagger equals that of the tag, trimmed. Any does if the tag's line isn't an actor alone.
fn is_tagger_of(tag: &TagRef<'_>, yielded: Option<SignatureRef<'_>>) -> bool {
    match tag.tagger() {
        Ok(tagger) => tagger == yielded.map(|actor| actor.trim()),
        Err(_) => yielded.is_some(),
    }
}

/// The column of name, email and time, as git writes it, each on a line.
fn write_lines(actor: SignatureRef<'_>, answer: &mut Answer) {
    answer.write("tagger \"");
    answer.push_escaped(actor.name.as_bytes());
    answer.push(b"\\n<");
    answer.push_escaped(actor.email.as_bytes());
    answer.push(b">\\n");
    if let Some(time) = actor.trim().time() {
        let mut buffer = TimeBuf::new();
        answer.push(time.to_str(&mut buffer).as_bytes());
    }
    answer.push(b"\"");
}

/// The columns of the encodings of a tag and of its owned form.
fn write_both_written(tag: TagRef<'_>, hash_kind: hash::Kind, answer: &mut Answer)
    requires { IsIdHex (tag_lines tag).target }
{
    write_written(&tag, hash_kind, answer);
    let signature = tag.signature();
    match tag.into_owned(answer.alloc) {
        Ok(tag) => {
            let same = tag.signature() == signature;
            answer.write_pair("owned", if same { "ok" } else { "another signature" });
            answer.prefix = Prefix::Owned;
            write_written(&tag, hash_kind, answer);
            answer.prefix = Prefix::Empty;
        }
        Err(error) => answer.write_pair("owned", fault(&error)),
    }
}

/// The columns of an encoded tag: its id, or the error and the bytes written before it; and its sizes.
fn write_written<T: WriteTo>(tag: &T, hash_kind: hash::Kind, answer: &mut Answer)
    requires { T.can_write tag.now }
{
    let (outcome, out) = encoded(tag, answer);
    if outcome == "ok" {
        answer.write_shown(
            "written",
            compute_hash(hash_kind, Kind::Tag, out.as_slice()),
        );
    } else {
        answer.write_pair("written", outcome);
        answer.add_in(Form::Quoted, out.as_slice());
    }
    write_sizes(tag, answer);
}

/// A tag without tagger and message. The parts of a question are set in it.
const BARE: &[u8] = b"object 4b825dc642cb6eb9a060e54bf8d69288fbee4904\ntype tree\ntag v1\n";

/// Answers with the encoding of the bare tag with these parts: name, tagger, message and signature. They are
/// separated by `|`, and `-` is none.
pub(crate) fn tag_parts_answer(question: &[u8], answer: &mut Answer) {
    let (name, rest) = split_at_first(question, b'|');
    let (tagger, rest) = split_at_first(rest, b'|');
    let (message, signature) = split_at_first(rest, b'|');
    let name = answer.unescape(name);
    let tagger = answer.unescape(tagger);
    let message = answer.unescape(message);
    let signature = answer.unescape(signature);
    if let Ok(mut tag) = TagRef::from_bytes(BARE, hash::Kind::Sha1) {
        tag.name = BStr::new(name.as_slice());
        tag.tagger = part(tagger.as_slice());
        tag.message = BStr::new(message.as_slice());
        tag.signature = part(signature.as_slice());
        write_both_written(tag, hash::Kind::Sha1, answer);
    }
}

/// A part. `None` for `-`.
fn part(bytes: &[u8]) -> Option<BStr<'_>> {
    match bytes {
        b"-" => None,
        _ => Some(BStr::new(bytes)),
    }
}

/// The name of a token.
fn token_name(token: &Result<Token<'_>, decode::Error>) -> &'static str {
    match token {
        Ok(Token::Target { .. }) => "target",
        Ok(Token::TargetKind(_)) => "kind",
        Ok(Token::Name(_)) => "name",
        Ok(Token::Tagger(Some(_))) => "tagger",
        Ok(Token::Tagger(None)) => "no-tagger",
        Ok(Token::Body { .. }) => "body",
        Err(error) => fault(error),
    }
}
