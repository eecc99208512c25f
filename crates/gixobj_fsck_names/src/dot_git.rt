//! Names of repositories.
ghost use Rattle.std.specs.Prelude.{◌↔◌, IsTrue};
ghost use Rattle.gixobj_fsck_names.specs.DotGit.{HasAfterBackslash, IsDotGit, IsDotGitOnNtfs};
ghost use Rattle.gixobj_fsck_names.specs.Walks.{FindsBackslash};

use crate::hfs::is_on_hfs;
use crate::ntfs::is_on_ntfs;

/// Returns whether HFS+ or NTFS takes the name for `.git`, or NTFS takes what follows a backslash in it for `.git`
/// (git-fsck, `hasDotgit`).
pub fn is_dot_git(name: &[u8]) -> bool
    ensures { IsTrue result ↔ IsDotGit name.now }
{
    is_on_hfs(name, b".git") || is_dot_git_on_ntfs(name) || has_after_backslash(name)
}

/// Returns whether NTFS takes the name for `.git`.
#[tactic(auto, unfolding(crate::specs::DotGit::IsDotGitOnNtfs))]
fn is_dot_git_on_ntfs(name: &[u8]) -> bool
    ensures { IsTrue result ↔ IsDotGitOnNtfs name.now }
{
    is_on_ntfs(true, name, b".git") || is_on_ntfs(true, name, b"git~1")
}

/// Returns whether NTFS takes what follows some backslash for `.git`.
fn has_after_backslash(name: &[u8]) -> bool
    ensures { IsTrue result ↔ HasAfterBackslash IsDotGitOnNtfs name.now }
{
    finds_backslash(name)
}

fn finds_backslash(name: &[u8]) -> bool
    ensures { IsTrue result ↔ FindsBackslash IsDotGitOnNtfs name.now }
{
    let mut rest = name;
    while let [byte, after @ ..] = rest {
        if *byte == b'\\' && is_dot_git_on_ntfs(after) {
            return true;
        }
        rest = after;
    }
    false
}
