//! Answers about trees: decoded, iterated, searched, copied and encoded; with their prefixes; and built from
//! entries. Many rows are trees that `git` describes.

use crate::values::add_mode;
use bstr::BStr;
use gixobj_base::hash::{self, ObjectId};
use gixobj_base::parse::split_at_byte;
use gixobj_base::tree::{Entry, EntryMode, Tree, name_order};
use gixobj_base::{Kind, WriteTo, compute_hash};
use gixobj_codec::laws::remaining_bytes_are_suffix;
use gixobj_codec::tree::EntryRef;
use gixobj_codec::{TreeRef, TreeRefIter};
use gixobj_tests_recorded::answer::{Answer, Prefix};
use gixobj_tests_recorded::fields::{alike, bytes_and_kind, fault, kind_and_bytes, yes_or_no};
use gixobj_tests_recorded::objects::{encoded, write_encoding, write_sizes};
use std::alloc::Global;

/// Answers with a decoded tree, its encoding and its owned form.
pub(crate) fn tree_answer(question: &[u8], answer: &mut Answer) {
    let (bytes, hash_kind) = bytes_and_kind(question, answer);
    match TreeRef::from_bytes(answer.alloc, bytes.as_slice(), hash_kind) {
        Ok(tree) => {
            write_entries(&tree, answer);
            write_encoding(&tree, answer);
            write_sizes(&tree, answer);
            match tree.into_owned(answer.alloc) {
                Ok(owned) => {
                    answer.write_pair("owned", "ok");
                    answer.prefix = Prefix::Owned;
                    write_encoding(&owned, answer);
                    write_sizes(&owned, answer);
                }
                Err(_) => answer.fail(),
            }
        }
        Err(error) => answer.write_pair("whole", fault(&error)),
    }
}

/// The column of the number of entries, and one of each entry.
fn write_entries(tree: &TreeRef<'_>, answer: &mut Answer) {
    answer.write_shown("whole ok", tree.entries.len());
    for entry in &tree.entries {
        write_entry("entry", *entry, answer);
    }
}

/// The column of an entry: octal digits, value and name of its mode, its id and its name.
fn write_entry(token: &str, entry: EntryRef<'_>, answer: &mut Answer) {
    answer.write(token);
    add_mode(entry.mode, answer);
    answer.add_shown(entry.oid.to_owned());
    answer.add_bytes(entry.filename.as_bytes());
}

/// Answers with the entries that an iterator yields of a tree.
pub(crate) fn tree_token_answer(question: &[u8], answer: &mut Answer) {
    let (bytes, hash_kind) = bytes_and_kind(question, answer);
    let content = bytes.as_slice();
    let mut seen = TreeRefIter::from_bytes(content, hash_kind);
    remaining_bytes_are_suffix();
    while let Some(entry) = seen.next() {
        match entry {
            Ok(entry) => {
                let end = seen.offset_to_next_entry(content);
                write_entry("token entry", entry, answer);
                answer.add("at");
                answer.add_shown(end);
            }
            Err(error) => answer.write_pair("token", fault(&error)),
        }
    }
    answer.write("end");
}

/// Answers with the encoding of a tree after its entries are sorted, and its id. The question is the kind of
/// ids, and a line for each entry: mode, id and name.
pub(crate) fn listed_tree_answer(question: &[u8], answer: &mut Answer) {
    let (hash_kind, entries) = kind_and_bytes(question, answer);
    let Some(mut tree) = tree_of(entries.as_slice(), answer) else {
        return answer.write("no entries");
    };
    if tree.entries.sort().is_err() {
        answer.fail();
    }
    let (outcome, out) = encoded(&tree, answer);
    answer.write_shown("id", compute_hash(hash_kind, Kind::Tree, out.as_slice()));
    write_sizes(&tree, answer);
    answer.write_pair("written", outcome);
    answer.add_bytes(out.as_slice());
}

/// Answers whether a tree with its entries in this order is well formed.
pub(crate) fn well_formed_answer(question: &[u8], answer: &mut Answer) {
    let entries = answer.unescape(question);
    match tree_of(entries.as_slice(), answer) {
        Some(tree) => answer.write(yes_or_no(tree.is_well_formed())),
        None => answer.write("no entries"),
    }
}

/// The tree of these entries. `None` if a line is malformed.
fn tree_of(entries: &[u8], answer: &mut Answer) -> Option<Tree> {
    let mut tree = Tree::empty(answer.alloc);
    for line in entries.split(|byte| *byte == b'\n') {
        if line.is_empty() {
            continue;
        }
        let (mode, oid, name) = parts_of(line)?;
        let filename = answer.copied(name);
        if tree
            .entries
            .push(Entry {
                mode,
                filename,
                oid,
            })
            .is_err()
        {
            answer.fail();
        }
    }
    Some(tree)
}

/// The mode, the id and the name of a line.
fn parts_of(line: &[u8]) -> Option<(EntryMode, ObjectId, &[u8])> {
    let (mode, rest) = EntryMode::extract_from_bytes(line)?;
    let (_, rest) = split_at_byte(rest, b' ')?;
    let (hex, name) = split_at_byte(rest, b' ')?;
    Some((mode, ObjectId::from_hex(hex)?, name))
}

/// Answers with a tree and its prefixes. The question is the encoding and the kind of ids.
pub(crate) fn git_tree_answer(question: &[u8], answer: &mut Answer) {
    let (bytes, hash_kind) = bytes_and_kind(question, answer);
    let input = bytes.as_slice();
    answer.write_shown("id", compute_hash(hash_kind, Kind::Tree, input));
    let seen = TreeRefIter::from_bytes(input, hash_kind);
    match TreeRef::from_bytes(answer.alloc, input, hash_kind) {
        Ok(tree) => write_tree(input, tree, seen, answer),
        Err(error) => {
            answer.write_pair("whole", fault(&error));
            write_rejected(seen, answer);
        }
    }
    answer.prefix = Prefix::Empty;
    write_beginnings(input, hash_kind, answer);
}

/// The columns of a tree.
fn write_tree(input: &[u8], tree: TreeRef<'_>, seen: TreeRefIter<'_>, answer: &mut Answer) {
    write_entries(&tree, answer);
    write_written(input, &tree, answer);
    let is_yielded = yields_entries(answer.alloc, seen, tree.entries.as_slice());
    answer.write_pair("told", alike(is_yielded));
    let Ok(copy) = tree.to_owned(answer.alloc) else {
        return answer.fail();
    };
    write_copy(&tree, &copy, answer);
    match tree.into_owned(answer.alloc) {
        Ok(owned) => write_owned(input, &copy, &owned, answer),
        Err(_) => answer.fail(),
    }
}

/// The columns of a copied tree.
fn write_copy(tree: &TreeRef<'_>, copy: &Tree, answer: &mut Answer) {
    let is_well_formed = copy.is_well_formed();
    answer.write_pair("owned", alike(has_entries(copy, tree.entries.as_slice())));
    answer.write_pair("well-formed", yes_or_no(is_well_formed));
    answer.write_pair("found", alike(are_found(tree, is_well_formed)));
}

/// The columns of a tree that was converted to an owned one.
fn write_owned(input: &[u8], copy: &Tree, owned: &Tree, answer: &mut Answer) {
    answer.write_pair("copied", alike(copy == owned));
    answer.prefix = Prefix::Owned;
    write_written(input, owned, answer);
}

/// The columns of a tree's encoding: `back` if it equals the input, else its bytes; and of its sizes.
fn write_written<T: WriteTo>(input: &[u8], tree: &T, answer: &mut Answer)
    requires { T.can_write tree.now }
{
    let (outcome, out) = encoded(tree, answer);
    if outcome == "ok" && out.as_slice() == input {
        answer.write_pair("written", "back");
    } else {
        answer.write_pair("written", outcome);
        answer.add_bytes(out.as_slice());
    }
    write_sizes(tree, answer);
}

/// Whether an owned tree has these entries, in order.
fn has_entries(tree: &Tree, entries: &[EntryRef<'_>]) -> bool {
    for (owned, entry) in tree.entries.iter().zip(entries) {
        if EntryRef::from(owned) != *entry {
            return false;
        }
    }
    tree.entries.len() == entries.len()
}

/// Whether an iterator yields these entries, collects the remaining ones at each, and then ends.
fn yields_entries(alloc: Global, mut seen: TreeRefIter<'_>, entries: &[EntryRef<'_>]) -> bool {
    for (at, entry) in entries.iter().enumerate() {
        if !gathers(alloc, seen, entries.get(at..)) {
            return false;
        }
        match seen.next() {
            Some(Ok(it)) if it == *entry => {}
            _ => return false,
        }
    }
    gathers(alloc, seen, Some(&[])) && seen.next().is_none()
}

/// Whether the remaining entries are these.
fn gathers(alloc: Global, seen: TreeRefIter<'_>, entries: Option<&[EntryRef<'_>]>) -> bool {
    match (seen.entries(alloc), entries) {
        (Ok(gathered), Some(entries)) => gathered.as_slice() == entries,
        _ => false,
    }
}

/// The columns of a malformed tree: the number of entries before the error, and the error of collecting them.
fn write_rejected(seen: TreeRefIter<'_>, answer: &mut Answer) {
    let (count, fault_after) = count_and_fault(seen);
    answer.write_shown("told", count);
    answer.add(fault_after.unwrap_or("end"));
    answer.write_result("gathered", &seen.entries(answer.alloc));
}

/// The number of yielded entries, and the error after them, if it is the last item.
fn count_and_fault(mut seen: TreeRefIter<'_>) -> (usize, Option<&'static str>) {
    let mut count = 0usize;
    while let Some(entry) = seen.next() {
        match entry {
            Ok(_) => count = count.saturating_add(1),
            Err(_) if seen.next().is_some() => return (count, Some("err and more")),
            Err(error) => return (count, Some(fault(&error))),
        }
    }
    (count, None)
}

/// Longer prefixes aren't decoded.
const LONGEST: usize = 300;

/// The column of the lengths of prefixes that are trees. For every other prefix the iterator has to yield the
/// entries before its end.
fn write_beginnings(input: &[u8], hash_kind: hash::Kind, answer: &mut Answer) {
    answer.write("beginnings at");
    let mut entries = 0usize;
    for len in 0..=input.len().min(LONGEST) {
        let beginning = input.get(..len).unwrap_or(b"");
        let decoded = decoded_count(answer.alloc, beginning, hash_kind);
        if let Ok(count) = decoded {
            entries = count;
            answer.add_shown(len);
        }
        let yielded = count_and_fault(TreeRefIter::from_bytes(beginning, hash_kind));
        if yielded != (entries, decoded.err()) {
            answer.add("otherwise");
        }
    }
}

/// The number of entries of a decoded tree, or the error.
fn decoded_count(alloc: Global, input: &[u8], kind: hash::Kind) -> Result<usize, &'static str> {
    match TreeRef::from_bytes(alloc, input, kind) {
        Ok(tree) => Ok(tree.entries.len()),
        Err(error) => Err(fault(&error)),
    }
}

/// Names that are looked up in each tree, next to those of its entries, separated by newlines.
const NAMES: &[u8] =
    b"\nA\nB\na\na-\na.\na.b\na.b.c\na0\na00\naa\nb\nb0\n\xc3\xbf\n \n/\na/\na/b\na//\na-/\na.b/c\nb/\nc/\nz/";

/// Whether lookups find the right entries for the tree's names and for others, as files and as directories.
fn are_found(tree: &TreeRef<'_>, is_well_formed: bool) -> bool {
    for entry in &tree.entries {
        if !is_either_found(tree, is_well_formed, entry.filename) {
            return false;
        }
    }
    are_others_found(tree, is_well_formed)
}

/// Whether lookups find the right entries for the other names.
fn are_others_found(tree: &TreeRef<'_>, is_well_formed: bool) -> bool {
    for name in NAMES.split(|byte| *byte == b'\n') {
        if !is_either_found(tree, is_well_formed, BStr::new(name)) {
            return false;
        }
    }
    true
}

/// Whether lookups find the right entries for a name, as a file and as a directory.
fn is_either_found(tree: &TreeRef<'_>, is_well_formed: bool, name: BStr<'_>) -> bool {
    is_found(tree, is_well_formed, name, false) && is_found(tree, is_well_formed, name, true)
}

/// Whether a lookup is right. In a malformed tree, or for a name with a `/`, the entry found has only to
/// compare equal.
fn is_found(tree: &TreeRef<'_>, is_well_formed: bool, name: BStr<'_>, is_dir: bool) -> bool {
    let found = tree.bisect_entry(name, is_dir);
    let name = name.as_bytes();
    if is_well_formed && !name.contains(&b'/') {
        return found == entry_of(tree, name, is_dir);
    }
    match found {
        Some(entry) => {
            let is_tree = entry.mode.is_tree();
            name_order(entry.filename.as_bytes(), is_tree, name, is_dir).is_eq()
        }
        None => true,
    }
}

/// The first entry of this name and kind.
fn entry_of<'a>(tree: &TreeRef<'a>, name: &[u8], is_dir: bool) -> Option<EntryRef<'a>> {
    for entry in &tree.entries {
        if entry.filename.as_bytes() == name && entry.mode.is_tree() == is_dir {
            return Some(*entry);
        }
    }
    None
}
