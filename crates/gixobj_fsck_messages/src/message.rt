//! Messages, their names and their numbers.
ghost use Rattle.std.specs.Prelude.{◌≡◌, ◌<◌, ◌≤◌, IfSome, MatchOption};
ghost use Rattle.gixobj_fsck_messages.specs.Messages.{NamesMessage, NamesNoMessage, message_count, message_name};
ghost use Rattle.gixobj_fsck_messages.specs.Messages.{message_number};
ghost use Rattle.gixobj_fsck_messages.specs.Severities.{documented_severity, made_strict, severity_of};

use crate::Severity;
use std::fmt;

/// How many messages there are.
const MESSAGE_COUNT: u8 = 45;

/// A message of `git fsck` about one tree, commit or tag (`git-fsck`, "FSCK MESSAGES").
///
/// The variants are in the order in which git reports the messages of one object.
#[derive(Clone, Copy, Debug, PartialEq, Eq, PartialOrd, Ord, Hash)]
pub enum Message {
    /// A link of a tree is named `.gitmodules`.
    GitmodulesSymlink,
    /// A link of a tree is named `.gitattributes`.
    GitattributesSymlink,
    /// A link of a tree is named `.gitignore`.
    GitignoreSymlink,
    /// A link of a tree is named `.mailmap`.
    MailmapSymlink,
    /// The bytes of a tree aren't entries.
    BadTree,
    /// A tree has an entry whose id is null.
    NullSha1,
    /// A name in a tree has a slash.
    FullPathname,
    /// A name in a tree is empty. Git reports `badTree` in its place.
    EmptyName,
    /// A name in a tree is `.`.
    HasDot,
    /// A name in a tree is `..`.
    HasDotdot,
    /// A name in a tree is `.git` on some file system.
    HasDotgit,
    /// A mode in a tree begins with `0`.
    ZeroPaddedFilemode,
    /// A mode in a tree is unknown.
    BadFilemode,
    /// Two entries of a tree have one name.
    DuplicateEntries,
    /// The entries of a tree aren't sorted.
    TreeNotSorted,
    /// A header has a zero byte.
    NulInHeader,
    /// A header has no end.
    UnterminatedHeader,
    /// A commit has no tree.
    MissingTree,
    /// The tree of a commit is no id.
    BadTreeSha1,
    /// A parent of a commit is no id.
    BadParentSha1,
    /// A commit has no author.
    MissingAuthor,
    /// A commit has several authors.
    MultipleAuthors,
    /// A commit has no committer.
    MissingCommitter,
    /// A commit has a zero byte after its header.
    NulInCommit,
    /// A tag has no object.
    MissingObject,
    /// The object of a tag is no id.
    BadObjectSha1,
    /// A tag has no line of its object's type.
    MissingTypeEntry,
    /// A tag has no type. Git never reports it.
    MissingType,
    /// The type in a tag is unknown.
    BadType,
    /// A tag has no line of its name.
    MissingTagEntry,
    /// A tag has no name. Git never reports it.
    MissingTag,
    /// The name of a tag makes no reference name.
    BadTagName,
    /// A tag has no tagger.
    MissingTaggerEntry,
    /// An actor has no name.
    MissingNameBeforeEmail,
    /// The name of an actor is invalid.
    BadName,
    /// An actor has no email.
    MissingEmail,
    /// No space precedes the email of an actor.
    MissingSpaceBeforeEmail,
    /// The email of an actor is invalid.
    BadEmail,
    /// No space precedes the date of an actor.
    MissingSpaceBeforeDate,
    /// The date of an actor begins with `0`.
    ZeroPaddedDate,
    /// The date of an actor is too large.
    BadDateOverflow,
    /// The date of an actor is invalid.
    BadDate,
    /// The time zone of an actor is invalid.
    BadTimezone,
    /// A tag has more headers.
    ExtraHeaderEntry,
    /// The kind of an object is unknown. Git never reports it.
    UnknownType,
}

impl Message {
    /// Returns the name of the message, as `git fsck` prints it. Allocates nothing.
    pub fn as_str(self) -> &'static str
        ensures { result.now ≡ message_name self }
    {
        match self {
            Message::GitmodulesSymlink => "gitmodulesSymlink",
            Message::GitattributesSymlink => "gitattributesSymlink",
            Message::GitignoreSymlink => "gitignoreSymlink",
            Message::MailmapSymlink => "mailmapSymlink",
            Message::BadTree => "badTree",
            Message::NullSha1 => "nullSha1",
            Message::FullPathname => "fullPathname",
            Message::EmptyName => "emptyName",
            Message::HasDot => "hasDot",
            Message::HasDotdot => "hasDotdot",
            Message::HasDotgit => "hasDotgit",
            Message::ZeroPaddedFilemode => "zeroPaddedFilemode",
            Message::BadFilemode => "badFilemode",
            Message::DuplicateEntries => "duplicateEntries",
            Message::TreeNotSorted => "treeNotSorted",
            Message::NulInHeader => "nulInHeader",
            Message::UnterminatedHeader => "unterminatedHeader",
            Message::MissingTree => "missingTree",
            Message::BadTreeSha1 => "badTreeSha1",
            Message::BadParentSha1 => "badParentSha1",
            Message::MissingAuthor => "missingAuthor",
            Message::MultipleAuthors => "multipleAuthors",
            Message::MissingCommitter => "missingCommitter",
            Message::NulInCommit => "nulInCommit",
            Message::MissingObject => "missingObject",
            Message::BadObjectSha1 => "badObjectSha1",
            Message::MissingTypeEntry => "missingTypeEntry",
            Message::MissingType => "missingType",
            Message::BadType => "badType",
            Message::MissingTagEntry => "missingTagEntry",
            Message::MissingTag => "missingTag",
            Message::BadTagName => "badTagName",
            Message::MissingTaggerEntry => "missingTaggerEntry",
            Message::MissingNameBeforeEmail => "missingNameBeforeEmail",
            Message::BadName => "badName",
            Message::MissingEmail => "missingEmail",
            Message::MissingSpaceBeforeEmail => "missingSpaceBeforeEmail",
            Message::BadEmail => "badEmail",
            Message::MissingSpaceBeforeDate => "missingSpaceBeforeDate",
            Message::ZeroPaddedDate => "zeroPaddedDate",
            Message::BadDateOverflow => "badDateOverflow",
            Message::BadDate => "badDate",
            Message::BadTimezone => "badTimezone",
            Message::ExtraHeaderEntry => "extraHeaderEntry",
            Message::UnknownType => "unknownType",
        }
    }

    /// Returns the number of the message, from 0 on. Allocates nothing.
    pub fn number(self) -> u8
        ensures value { result ≡ message_number self }
        ensures max { result < message_count }
    {
        self as u8
    }

    /// Returns the message of this number, or `None` if there is none. Allocates nothing.
    pub fn from_number(number: u8) -> Option<Message>
        ensures { MatchOption result (message_count ≤ number) (λ it. message_number it ≡ number) }
    {
        match number {
            0 => Some(Message::GitmodulesSymlink),
            1 => Some(Message::GitattributesSymlink),
            2 => Some(Message::GitignoreSymlink),
            3 => Some(Message::MailmapSymlink),
            4 => Some(Message::BadTree),
            5 => Some(Message::NullSha1),
            6 => Some(Message::FullPathname),
            7 => Some(Message::EmptyName),
            8 => Some(Message::HasDot),
            9 => Some(Message::HasDotdot),
            10 => Some(Message::HasDotgit),
            11 => Some(Message::ZeroPaddedFilemode),
            12 => Some(Message::BadFilemode),
            13 => Some(Message::DuplicateEntries),
            14 => Some(Message::TreeNotSorted),
            15 => Some(Message::NulInHeader),
            16 => Some(Message::UnterminatedHeader),
            17 => Some(Message::MissingTree),
            18 => Some(Message::BadTreeSha1),
            19 => Some(Message::BadParentSha1),
            20 => Some(Message::MissingAuthor),
            21 => Some(Message::MultipleAuthors),
            22 => Some(Message::MissingCommitter),
            23 => Some(Message::NulInCommit),
            24 => Some(Message::MissingObject),
            25 => Some(Message::BadObjectSha1),
            26 => Some(Message::MissingTypeEntry),
            27 => Some(Message::MissingType),
            28 => Some(Message::BadType),
            29 => Some(Message::MissingTagEntry),
            30 => Some(Message::MissingTag),
            31 => Some(Message::BadTagName),
            32 => Some(Message::MissingTaggerEntry),
            33 => Some(Message::MissingNameBeforeEmail),
            34 => Some(Message::BadName),
            35 => Some(Message::MissingEmail),
            36 => Some(Message::MissingSpaceBeforeEmail),
            37 => Some(Message::BadEmail),
            38 => Some(Message::MissingSpaceBeforeDate),
            39 => Some(Message::ZeroPaddedDate),
            40 => Some(Message::BadDateOverflow),
            41 => Some(Message::BadDate),
            42 => Some(Message::BadTimezone),
            43 => Some(Message::ExtraHeaderEntry),
            44 => Some(Message::UnknownType),
            _ => None,
        }
    }

    /// Returns the message of this name in any case of its letters, or `None` if there is none.
    ///
    /// Git takes names so (`git-config`, `fsck.<msg-id>`). Allocates nothing.
    pub fn from_name(name: &[u8]) -> Option<Message>
        ensures { MatchOption result (NamesNoMessage name.now) (NamesMessage name.now) }
    {
        for number in 0..MESSAGE_COUNT {
            let message = Message::from_number(number)?;
            if message.as_str().as_bytes().eq_ignore_ascii_case(name) {
                return Some(message);
            }
        }
        None
    }

    /// Returns the severity of the message. A strict check makes an error of a warning. Allocates nothing.
    pub fn severity(self, strict: bool) -> Severity
        ensures { result ≡ severity_of strict self }
    {
        match documented_severity(self) {
            Severity::Warn if strict => Severity::Error,
            severity => severity,
        }
    }
}

/// Returns the severity of a message in git's documentation.
fn documented_severity(message: Message) -> Severity
    ensures { result ≡ documented_severity message }
{
    match message {
        Message::NulInHeader | Message::UnterminatedHeader => Severity::Fatal,
        Message::NullSha1
        | Message::FullPathname
        | Message::EmptyName
        | Message::HasDot
        | Message::HasDotdot
        | Message::HasDotgit
        | Message::ZeroPaddedFilemode
        | Message::NulInCommit => Severity::Warn,
        Message::GitattributesSymlink
        | Message::GitignoreSymlink
        | Message::MailmapSymlink
        | Message::BadFilemode
        | Message::BadTagName
        | Message::MissingTaggerEntry => Severity::Info,
        Message::ExtraHeaderEntry => Severity::Ignore,
        _ => Severity::Error,
    }
}

/// Formats the name of the message.
impl fmt::Display for Message {
    ghost use Rattle.std.specs.Prelude.{Some};

    ghost output = { λ message. Some (message_name message) };

    fn fmt<W: fmt::Write>(&self, f: &mut fmt::Formatter<W>) -> fmt::Result {
        f.write_str(self.as_str())
    }
}
