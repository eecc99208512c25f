//! Names as NTFS takes them.
ghost use Rattle.std.specs.Prelude.{◌↔◌, IsTrue};
ghost use Rattle.gixobj_fsck_names.specs.Ntfs.{EndsOnNtfs, IsDropped, IsOnNtfs};
ghost use Rattle.gixobj_fsck_names.specs.Walks.{DropsEach, SpellsEach};

/// Returns whether NTFS takes the name for these letters, which are no capitals.
pub(crate) fn is_on_ntfs(slashes: bool, name: &[u8], letters: &[u8]) -> bool
    ensures { IsTrue result ↔ IsOnNtfs slashes name.now letters.now }
{
    spells_each(slashes, name, letters)
}

/// Returns whether NTFS drops the bytes at the end of a name.
pub(crate) fn is_dropped(slashes: bool, bytes: &[u8]) -> bool
    ensures { IsTrue result ↔ IsDropped slashes bytes.now }
{
    drops_each(slashes, bytes)
}

fn spells_each(slashes: bool, name: &[u8], letters: &[u8]) -> bool
    ensures { IsTrue result ↔ SpellsEach slashes name.now letters.now }
{
    match letters {
        [] => is_dropped(slashes, name),
        [letter, letters @ ..] => match name {
            [] => false,
            [byte, name @ ..] => byte.to_ascii_lowercase() == *letter
                && spells_each(slashes, name, letters),
        },
    }
}

fn drops_each(slashes: bool, bytes: &[u8]) -> bool
    ensures { IsTrue result ↔ DropsEach slashes bytes.now }
{
    let mut rest = bytes;
    while let [byte, after @ ..] = rest {
        if ends_on_ntfs(slashes, rest) {
            return true;
        }
        if *byte != b' ' && *byte != b'.' {
            return false;
        }
        rest = after;
    }
    true
}

/// Returns whether a name ends here.
fn ends_on_ntfs(slashes: bool, bytes: &[u8]) -> bool
    ensures { IsTrue result ↔ EndsOnNtfs slashes bytes.now }
{
    match bytes {
        [] => true,
        [byte, ..] => *byte == b':' || slashes && (*byte == b'\\' || *byte == b'/'),
    }
}
