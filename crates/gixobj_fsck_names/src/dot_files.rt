//! Names of the files that git reads from trees.
ghost use Rattle.std.specs.Prelude.{◌≡◌, ◌⊎◌, ◌↔◌, IsTrue};
ghost use Rattle.gixobj_fsck_names.specs.DotFiles.{IsFileOnNtfs, IsGitAttributes, IsGitIgnore, IsGitModules};
ghost use Rattle.gixobj_fsck_names.specs.DotFiles.{IsGitModulesFile, IsGitModulesOnNtfs, IsMailmap};
ghost use Rattle.gixobj_fsck_names.specs.DotGit.{HasAfterBackslash, IsCountAfterBackslashes};
ghost use Rattle.gixobj_fsck_names.specs.Letters.{backslash};
ghost use Rattle.gixobj_fsck_names.specs.Walks.{FindsBackslash};

use crate::hfs::is_on_hfs;
use crate::ntfs::is_on_ntfs;
use crate::short_names::{is_hashed_name, is_short_name};

/// Returns whether HFS+ or NTFS takes the name for `.gitmodules`, or NTFS takes what follows a backslash in it for that
/// (git-fsck, `gitmodulesSymlink`).
pub fn is_git_modules(name: &[u8]) -> bool
    ensures { IsTrue result ↔ IsGitModules name.now }
{
    is_on_hfs(name, b".gitmodules") || is_git_modules_on_windows(name)
}

/// Returns whether HFS+ or NTFS takes the name for `.gitmodules`. Backslashes don't count.
pub fn is_git_modules_file(name: &[u8]) -> bool
    ensures { IsTrue result ↔ IsGitModulesFile name.now }
{
    is_on_hfs(name, b".gitmodules") || is_git_modules_on_ntfs(name)
}

/// Returns how many backslashes of the name have a rest that NTFS takes for `.gitmodules`.
pub fn count_git_modules_after_backslashes(name: &[u8]) -> usize
    ensures { IsCountAfterBackslashes IsGitModulesOnNtfs name.now result }
{
    let mut count = 0;
    let mut rest = name;
    while let Some((byte, after)) = rest.split_first() {
        if is_git_modules_after(*byte, after) {
            count += 1;
        }
        rest = after;
    }
    count
}

/// Returns whether the byte is a backslash before what NTFS takes for `.gitmodules`.
fn is_git_modules_after(byte: u8, rest: &[u8]) -> bool
    ensures { IsTrue result ↔ ((byte ≡ backslash) × IsGitModulesOnNtfs rest.now) }
{
    byte == b'\\' && is_git_modules_on_ntfs(rest)
}

/// Returns whether HFS+ or NTFS takes the name for `.gitattributes` (git-fsck, `gitattributesSymlink`).
pub fn is_git_attributes(name: &[u8]) -> bool
    ensures { IsTrue result ↔ IsGitAttributes name.now }
{
    is_on_hfs(name, b".gitattributes")
        || is_file_on_ntfs(b".gitattributes", b"gitatt~", b"gi7d29", name)
}

/// Returns whether HFS+ or NTFS takes the name for `.gitignore` (git-fsck, `gitignoreSymlink`).
pub fn is_git_ignore(name: &[u8]) -> bool
    ensures { IsTrue result ↔ IsGitIgnore name.now }
{
    is_on_hfs(name, b".gitignore") || is_file_on_ntfs(b".gitignore", b"gitign~", b"gi250a", name)
}

/// Returns whether HFS+ or NTFS takes the name for `.mailmap` (git-fsck, `mailmapSymlink`).
pub fn is_mailmap(name: &[u8]) -> bool
    ensures { IsTrue result ↔ IsMailmap name.now }
{
    is_on_hfs(name, b".mailmap") || is_file_on_ntfs(b".mailmap", b"mailma~", b"maba30", name)
}

/// Returns whether NTFS takes the name for the file with this name, beginning and hash.
#[tactic(auto, unfolding(crate::specs::DotFiles::IsFileOnNtfs))]
fn is_file_on_ntfs(file: &[u8], beginning: &[u8], hash: &[u8], name: &[u8]) -> bool
    ensures { IsTrue result ↔ IsFileOnNtfs file.now beginning.now hash.now name.now }
{
    is_on_ntfs(false, name, file) || is_short_name(beginning, name) || is_hashed_name(hash, name)
}

/// Returns whether NTFS takes the name, or what follows some backslash in it, for `.gitmodules`.
fn is_git_modules_on_windows(name: &[u8]) -> bool
    ensures { IsTrue result ↔ (IsGitModulesOnNtfs name.now
        ⊎ HasAfterBackslash IsGitModulesOnNtfs name.now) }
{
    is_git_modules_on_ntfs(name) || has_after_backslash(name)
}

/// Returns whether NTFS takes the name for `.gitmodules`.
fn is_git_modules_on_ntfs(name: &[u8]) -> bool
    ensures { IsTrue result ↔ IsGitModulesOnNtfs name.now }
{
    is_file_on_ntfs(b".gitmodules", b"gitmod~", b"gi7eba", name)
}

/// Returns whether NTFS takes what follows some backslash for `.gitmodules`.
fn has_after_backslash(name: &[u8]) -> bool
    ensures { IsTrue result ↔ HasAfterBackslash IsGitModulesOnNtfs name.now }
{
    finds_backslash(name)
}

fn finds_backslash(name: &[u8]) -> bool
    ensures { IsTrue result ↔ FindsBackslash IsGitModulesOnNtfs name.now }
{
    let mut rest = name;
    while let [byte, after @ ..] = rest {
        if *byte == b'\\' && is_git_modules_on_ntfs(after) {
            return true;
        }
        rest = after;
    }
    false
}
