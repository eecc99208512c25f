//! The lines that git generates: sign-offs, and the origins of cherry-picked commits.
ghost use Rattle.std.specs.Prelude.{◌≡◌};
ghost use Rattle.gixobj_text.specs.BodyLines.{begins_git_generated as begins_git_generated_of};

/// Returns whether the bytes begin with a prefix of a line that git generates.
#[inline(always)]
pub(crate) fn begins_git_generated(bytes: &[u8]) -> bool
    ensures { result ≡ begins_git_generated_of bytes.now }
{
    bytes.starts_with(b"Signed-off-by: ") || bytes.starts_with(b"(cherry picked from commit ")
}
