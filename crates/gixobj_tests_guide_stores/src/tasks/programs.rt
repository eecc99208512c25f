//! A program over the objects of a repository, which it reads from standard input.

use anyhow::{Context, Result, ensure};
use gix_object::hash::ObjectId;
use gix_object::{CommitRef, FindExt, Kind, Memory};
use std::alloc::Global;
use std::env;
use std::io::{BufRead, BufReader, Read, Write};

/// Prints a commit and its first parents, as `git log --first-parent --format='%H %s' ID` does.
pub fn main(rt: HostRuntime) -> Result<()> {
    let alloc = rt.alloc();
    let argument = env::args(&rt)?.nth(1).context("no id is given")?;
    let tip = ObjectId::from_hex(argument.as_bytes()).context("the argument is no id")?;
    let store = read_objects(alloc, &mut BufReader::new(alloc, rt.reader())?)?;
    print_log(alloc, &store, tip, &mut rt.stdout())
}

/// Reads the output of `git cat-file --batch` into a store. Fails at a line such as `ID missing`.
pub fn read_objects<R: BufRead>(alloc: Global, input: &mut R) -> Result<Memory> {
    let (mut store, mut content) = (Memory::new(alloc), Vec::new(alloc));
    let mut line = String::new(alloc);
    for _ in 0..u64::MAX {
        line.clear();
        if input.read_line(&mut line)? == 0 {
            break;
        }
        let (id, kind, size) = header_of(line.as_str()).context("a line is no header")?;
        content.clear();
        input.by_ref().take(size).read_to_end(&mut content)?;
        ensure!(input.skip_until(b'\n')? == 1, "an object has another size");
        store.insert_known(id, kind, &content)?;
    }
    Ok(store)
}

/// Decodes a line such as `ce013625030ba8dba906f756967f9e9ca394464a blob 6`.
fn header_of(line: &str) -> Option<(ObjectId, Kind, u64)> {
    let mut tokens = line.split_whitespace();
    let id = ObjectId::from_hex(tokens.next()?.as_bytes())?;
    let kind = Kind::from_name(tokens.next()?.as_bytes())?;
    let size = tokens.next()?.parse().ok()?;
    Some((id, kind, size))
}

/// Prints the lines of a commit and its first parents.
pub fn print_log<W: Write>(
    alloc: Global,
    store: &Memory,
    tip: ObjectId,
    out: &mut W,
) -> Result<()> {
    let (mut buffer, mut id) = (Vec::new(alloc), tip);
    for _ in 0..store.len() {
        let commit = store.find_commit(alloc, id.as_oid(), &mut buffer)?;
        print_commit(alloc, id, &commit, out)?;
        match commit.parents().next() {
            Some(parent) => id = parent,
            None => break,
        }
    }
    Ok(())
}

/// Prints the id of a commit and the summary of its message.
fn print_commit<W: Write>(
    alloc: Global,
    id: ObjectId,
    commit: &CommitRef<'_>,
    out: &mut W,
) -> Result<()> {
    let summary = commit.message_summary(alloc)?;
    write!(out, "{id} ")?;
    out.write_all(summary.as_slice())?;
    out.write_all(b"\n")?;
    Ok(())
}
