//! The token iterator over tags (gitdatamodel, "tag objects").
ghost use Rattle.std.specs.Prelude.{◌≡◌, IfErr, IfOk};
ghost use Rattle.gixobj_hash.specs.Runs.{Ending};
ghost use Rattle.gixobj_hash.specs.declared.decode.Error.TheVariants.{Malformed};
ghost use Rattle.gixobj_tokens.specs.TagTokenSteps.{FindsTagger, NextIdOfTag, NextTagToken, IsAtStartOfTag};
ghost use Rattle.gixobj_tokens.specs.TagTokenSteps.{YieldsNoTagger, remaining_tag_token_count};

mod signature;

use gixobj_actor::actor::SignatureRef;
pub use gixobj_grammar::tokens::{State, Token, decode_token};
use gixobj_hash::decode::Error;
use gixobj_hash::hash;
use gixobj_hash::hash::ObjectId;

/// An iterator over the tokens of a tag, each decoded when it is yielded. [`TagRefIter::from_bytes`] makes
/// one.
#[derive(Clone, Copy)]
pub struct TagRefIter<'a> {
    bytes: &'a [u8],
    state: State,
    hash_kind: hash::Kind,
}

/// Lifecycle
impl<'a> TagRefIter<'a> {
    /// Returns an iterator over the tokens of a tag's encoding, with a target id of `hash_kind`.
    ///
    /// Decodes nothing yet, and allocates nothing.
    pub fn from_bytes(bytes: &'a [u8], hash_kind: hash::Kind) -> TagRefIter<'a>
        ensures { IsAtStartOfTag hash_kind bytes.now result }
    {
        TagRefIter {
            bytes,
            state: State::Target,
            hash_kind,
        }
    }
}

/// Access
impl<'a> TagRefIter<'a> {
    /// Returns the id of the next token, which is the target's at the start. Allocates nothing.
    ///
    /// # Errors
    ///
    /// [`Error::Malformed`] if the next token is malformed, is missing or has no id.
    pub fn target_id(self) -> Result<ObjectId, Error>
        ensures found { NextIdOfTag self.entry result }
        ensures error { IfErr result (λ e. e ≡ Malformed) }
    {
        let mut tokens = self;
        let Some(Ok(token)) = tokens.next() else {
            return Err(Error::Malformed);
        };
        match token.into_id() {
            Some(id) => Ok(id),
            None => Err(Error::Malformed),
        }
    }

    /// Returns who made the tag, and when, untrimmed. Allocates nothing.
    ///
    /// Returns `None` if other bytes than a tagger line follow the name.
    ///
    /// # Errors
    ///
    /// [`Error::Malformed`] if a token up to the tagger is malformed, or if no tagger token remains. The
    /// latter is so if the bytes end with the name or earlier, or if the token was consumed.
    #[tactic(auto, using(crate::proofs::TagRuns::searches_nil, crate::proofs::TagRuns::finds_first_at_token))]
    pub fn tagger(self) -> Result<Option<SignatureRef<'a>>, Error>
        ensures found { IfOk result (FindsTagger self.entry) }
        ensures error { IfErr result (λ e. (e ≡ Malformed)
            × ((ending : Ending) × YieldsNoTagger self.entry ending)) }
    {
        for item in self {
            let token = item?;
            if let Token::Tagger(tagger) = token {
                return Ok(tagger);
            }
        }
        Err(Error::Malformed)
    }
}

/// Yields the next token, or `None` if no bytes remain. After an error the iterator is at its end.
///
/// Bytes that end after a line yield no error, even if lines are missing. A tag that ends with its name
/// yields neither a tagger nor a body. Allocates nothing.
///
/// # Errors
///
/// [`Error::Malformed`] if the remaining bytes begin with no token that may come next.
impl<'a> Iterator for TagRefIter<'a> {
    type Item = Result<Token<'a>, Error>;

    ghost next_gives = { NextTagToken };

    ghost remaining = { remaining_tag_token_count };

    fn next(&mut self) -> Option<Result<Token<'a>, Error>> {
        if self.bytes.is_empty() {
            return None;
        }
        match decode_token(self.bytes, self.state, self.hash_kind) {
            Some((token, state, rest)) => {
                self.bytes = rest;
                self.state = state;
                Some(Ok(token))
            }
            None => {
                self.bytes = b"";
                Some(Err(Error::Malformed))
            }
        }
    }
}
