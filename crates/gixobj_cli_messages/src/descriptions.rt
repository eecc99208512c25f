//! What the messages of git mean.
ghost use Rattle.std.specs.Prelude.{◌≡◌};
ghost use Rattle.gixobj_cli_messages.specs.Descriptions.{message_description};

use gixobj_fsck_messages::Message;

/// Returns what a message means. Allocates nothing.
pub fn message_description(message: Message) -> &'static str
    ensures { result.now ≡ message_description message }
{
    match message {
        Message::GitmodulesSymlink => "a link is named .gitmodules",
        Message::GitattributesSymlink => "a link is named .gitattributes",
        Message::GitignoreSymlink => "a link is named .gitignore",
        Message::MailmapSymlink => "a link is named .mailmap",
        Message::BadTree => "the tree is malformed",
        Message::NullSha1 => "an id is null",
        Message::FullPathname => "a name has a slash",
        Message::EmptyName => "a name is empty",
        Message::HasDot => "a name is .",
        Message::HasDotdot => "a name is ..",
        Message::HasDotgit => "a name is .git on some file system",
        Message::ZeroPaddedFilemode => "a mode begins with 0",
        Message::BadFilemode => "a mode is unknown",
        Message::DuplicateEntries => "two entries have one name",
        Message::TreeNotSorted => "the entries are unsorted",
        Message::NulInHeader => "the header has a zero byte",
        Message::UnterminatedHeader => "the header has no end",
        Message::MissingTree => "the tree line is missing",
        Message::BadTreeSha1 => "the id of the tree is invalid",
        Message::BadParentSha1 => "the id of a parent is invalid",
        Message::MissingAuthor => "the author line is missing",
        Message::MultipleAuthors => "there are several author lines",
        Message::MissingCommitter => "the committer line is missing",
        Message::NulInCommit => "the commit has a zero byte",
        Message::MissingObject => "the object line is missing",
        Message::BadObjectSha1 => "the id of the object is invalid",
        Message::MissingTypeEntry => "the type line is missing",
        Message::MissingType => "the type line has no end",
        Message::BadType => "the type is unknown",
        Message::MissingTagEntry => "the tag line is missing",
        Message::MissingTag => "the tag line has no end",
        Message::BadTagName => "the tag name is invalid",
        Message::MissingTaggerEntry => "the tagger line is missing",
        Message::MissingNameBeforeEmail => "an actor has no name",
        Message::BadName => "the name of an actor is invalid",
        Message::MissingEmail => "an actor has no email",
        Message::MissingSpaceBeforeEmail => "no space precedes the email of an actor",
        Message::BadEmail => "the email of an actor is invalid",
        Message::MissingSpaceBeforeDate => "no space precedes the date of an actor",
        Message::ZeroPaddedDate => "the date of an actor begins with 0",
        Message::BadDateOverflow => "the date of an actor is too large",
        Message::BadDate => "the date of an actor is invalid",
        Message::BadTimezone => "the time zone of an actor is invalid",
        Message::ExtraHeaderEntry => "a header follows the tagger line",
        Message::UnknownType => "the kind is unknown",
    }
}
