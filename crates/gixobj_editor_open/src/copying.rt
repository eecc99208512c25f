//! Copies of open directories, by a loop over a list of frames, so the path may be of any depth.
ghost use Rattle.std.specs.Prelude.{◌≡◌, ◌+◌, ◌++◌, ◌∷◌, [], IfOk, OnOk, length};
ghost use Rattle.gixobj_editor_open.specs.Children.{remaining_list};
ghost use Rattle.gixobj_editor_open.specs.Copies.{IsCopiedInPart};
ghost use Rattle.gixobj_editor_open.specs.Nested.{IsLevel, below, opened, parts};

use crate::children::Remaining;
use crate::open::{Child, Children, Open, copy_tree};
use bstr::BString;
use gixobj_editor_files::open_entries::Entries;
use gixobj_tree::Tree;
use std::alloc::{AllocError, Global};
use std::mem;

/// A directory whose copy is begun.
#[derive(Drop)]
struct Copying<'a> {
    /// A copy of its name.
    name: BString,
    /// A copy of its entries.
    entries: Entries,
    /// A copy of its base.
    base: Tree,
    /// Copies of the first directories that are open in it.
    copies: Vec<Child>,
    /// The directories after those.
    remaining: Remaining<'a>,
}

/// Copies a directory and all that is open in it.
pub(crate) fn copied(alloc: Global, node: &Open) -> Result<Open, AllocError>
    ensures { IfOk result (λ it. it ≡ node.now) }
{
    let mut above = Vec::new(alloc);
    let mut frame = begin(alloc, BString::new(Vec::new(alloc)), node)?;
    'frames: loop {
        let (next, remaining) = frame.remaining.next();
        frame.remaining = remaining;
        match next {
            Some(child) => {
                let name = BString::from_slice(alloc, child.name.as_bytes())?;
                let inner = begin(alloc, name, &child.open)?;
                wait(&mut above, &mut frame, inner)?;
            }
            None => {
                let (name, open) = finish(alloc, frame);
                let Some(mut parent) = above.pop() else {
                    return Ok(open);
                };
                parent.copies.push(Child { name, open })?;
                frame = parent;
            }
        }
    }
}

/// Replaces a copy by one that is begun before it ends. The former waits at the end of the list then.
fn wait<'a>(
    above: &mut Vec<Copying<'a>>,
    frame: &mut Copying<'a>,
    begun: Copying<'a>,
) -> Result<(), AllocError>
    ensures waits { OnOk result (above.new.items ≡ above.old.items ++ frame.old ∷ []) }
    ensures begun { OnOk result (frame.new ≡ begun.entry) }
{
    above.reserve(1)?;
    let waiting = mem::replace(frame, begun);
    let _ = above.push(waiting);
    Ok(())
}

/// Begins the copy of a directory, which has this name.
fn begin(alloc: Global, name: BString, node: &Open) -> Result<Copying<'_>, AllocError>
    ensures name { IfOk result (λ it. it.name ≡ name) }
    ensures half { IfOk result (λ it. IsCopiedInPart it
        (parts (remaining_list it.remaining)) node.now) }
    ensures fewer { IfOk result (λ it. length (below (parts (remaining_list it.remaining))) + 1
        ≡ length node.now) }
{
    let tree = node.entries.copied(alloc)?;
    let base = copy_tree(alloc, &node.base)?;
    let remaining = node.children.remaining();
    Ok(Copying {
        name,
        entries: Entries::from_tree(alloc, tree),
        base,
        copies: Vec::new(alloc),
        remaining,
    })
}

/// Returns the name of a copied directory, and the copy.
fn finish(alloc: Global, frame: Copying<'_>) -> (BString, Open)
    requires { IsLevel frame.entries (parts frame.copies.items) }
    ensures name { result.0 ≡ frame.entry.name }
    ensures node { result.1 ≡ opened frame.entry.entries frame.entry.base
        (parts frame.entry.copies.items) }
{
    let Copying {
        name,
        entries,
        base,
        copies,
        ..
    } = frame;
    let children = Children {
        first: copies,
        more: Vec::new(alloc),
    };
    let open = Open {
        entries,
        base,
        children,
    };
    (name, open)
}
