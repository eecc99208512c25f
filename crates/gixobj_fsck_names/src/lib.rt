//! Names that file systems take for `.git`, `.gitmodules`, `.gitattributes`, `.gitignore` and `.mailmap` (git-config,
//! "core.protectHFS", "core.protectNTFS"; git-fsck, `hasDotgit`, `gitmodulesSymlink`).
#![tactic(auto)]

mod dot_files;
mod dot_git;
mod hfs;
mod ntfs;
mod short_names;
mod utf8;

pub use dot_files::{
    count_git_modules_after_backslashes, is_git_attributes, is_git_ignore, is_git_modules,
    is_git_modules_file, is_mailmap,
};
pub use dot_git::is_dot_git;
