//! Laws on the token iterator over tags and the decoder of entire tags. Each function is empty, and its
//! contract is the law.
ghost use Rattle.std.specs.Prelude.{◌≡◌, ◌++◌, ◌∷◌, [], ℕ, Err, List, None, Ok, Option, Result, Some};
ghost use Rattle.gixobj_actor.specs.declared.actor.SignatureRef.{SignatureRef};
ghost use Rattle.gixobj_hash.specs.Runs.{Ending, broken, complete};
ghost use Rattle.gixobj_hash.specs.Hash.{DecodesToId};
ghost use Rattle.gixobj_hash.specs.declared.decode.Error as decode;
ghost use Rattle.gixobj_hash.specs.declared.hash.kind.Kind.{Kind};
ghost use Rattle.gixobj_hash.specs.declared.hash.object_id.ObjectId.{ObjectId};
ghost use Rattle.gixobj_tokens.specs.TagReaders.{AreTokensOfTag, EndsAfterItsName, IsAfterName};
ghost use Rattle.gixobj_grammar.specs.TagTokens.{IsTokenOfTagger, BeginsWithTagToken, TagTokenView, tag_token_view};
ghost use Rattle.gixobj_tokens.specs.TagTokenSteps.{DecodesToTagTokens, FindsTagger, NextIdOfTag, NextTagToken};
ghost use Rattle.gixobj_tokens.specs.TagTokenSteps.{HasConsumedTagTokens, IsAtStartOfTag, YieldsNoTagger};
ghost use Rattle.gixobj_tokens.specs.TagTokenSteps.{YieldsTagTokens, token_of_tagger};
ghost use Rattle.gixobj_grammar.specs.declared.tokens.State.{State};
ghost use Rattle.gixobj_grammar.specs.declared.tokens.State.TheVariants as state;
ghost use Rattle.gixobj_tokens.specs.declared.tag.TagRefIter.{TagRefIter};
ghost use Rattle.gixobj_grammar.specs.declared.tokens.Token.{Token};
ghost use Rattle.gixobj_tag.specs.TagFormat.{DecodesToTag, TagLines};

/// In each state bytes begin with at most one token, and have at most one run of tokens, with one ending.
///
/// If the run is complete, the bytes are the concatenated encodings of its tokens.
pub fn tag_tokens_decode_uniquely()
    ensures one_token { (kind : Kind) (before : State) (input : List ℕ)
        (token token' : TagTokenView) (following after' : State) (rest rest' : List ℕ)
        → BeginsWithTagToken kind before input token following rest
        → BeginsWithTagToken kind before input token' after' rest' → (token ≡ token') × (following ≡ after')
        × (rest ≡ rest') }
    ensures one_run { (kind : Kind) (before : State) (input : List ℕ)
        (tokens tokens' : List TagTokenView) (ending ending' : Ending)
        → YieldsTagTokens kind before input tokens ending → YieldsTagTokens kind before input tokens' ending'
        → (tokens ≡ tokens') × (ending ≡ ending') }
    ensures decodes { (kind : Kind) (before : State) (input : List ℕ) (tokens : List TagTokenView)
        → YieldsTagTokens kind before input tokens complete → DecodesToTagTokens kind input tokens }
{}

/// The tokens that an iterator has consumed are a prefix of the tokens of its bytes.
///
/// At its start it has consumed none, and each yielded token is consumed too. At its end the consumed tokens
/// are the complete run; at an error they are the run up to there.
pub fn consumed_tag_tokens_are_prefix()
    ensures starts { (kind : Kind) (bytes : List ℕ) (reader : TagRefIter)
        → IsAtStartOfTag kind bytes reader → HasConsumedTagTokens kind bytes [] reader }
    ensures continues { (kind : Kind) (bytes : List ℕ) (tokens : List TagTokenView)
        (at after : TagRefIter) (token : Token) → HasConsumedTagTokens kind bytes tokens at
        → NextTagToken at (Some (Ok token)) after
        → HasConsumedTagTokens kind bytes (tokens ++ tag_token_view token ∷ []) after }
    ensures ends { (kind : Kind) (bytes : List ℕ) (tokens : List TagTokenView)
        (at after : TagRefIter) → HasConsumedTagTokens kind bytes tokens at
        → NextTagToken at None after → YieldsTagTokens kind state.Target bytes tokens complete }
    ensures stops { (kind : Kind) (bytes : List ℕ) (tokens : List TagTokenView)
        (at after : TagRefIter) (error : decode.Error) → HasConsumedTagTokens kind bytes tokens at
        → NextTagToken at (Some (Err error)) after
        → YieldsTagTokens kind state.Target bytes tokens broken }
{}

/// The token iterator and the decoder of entire tags accept the same bytes.
///
/// The encoding of a tag yields the tokens of that tag to the end, its name among them. Bytes that yield
/// tokens to the end, with a name among them, are the encoding of a tag with these tokens. A tag that ends
/// with its name has no token for its absent tagger, and an empty body has none either.
pub fn tag_readers_agree()
    ensures yields { (kind : Kind) (bytes : List ℕ) (tag : TagLines) → DecodesToTag kind bytes tag
        → (tokens : List TagTokenView) × YieldsTagTokens kind state.Target bytes tokens complete
        × AreTokensOfTag tag tokens × IsAfterName tokens }
    ensures decodes { (kind : Kind) (bytes : List ℕ) (tokens : List TagTokenView)
        → YieldsTagTokens kind state.Target bytes tokens complete → IsAfterName tokens → (tag : TagLines)
        × DecodesToTag kind bytes tag × AreTokensOfTag tag tokens }
{}

/// A token iterator at the start of a tag's encoding finds the tag's target, and its tagger or that it has
/// none.
///
/// It yields no tagger token only if the encoding ends with the name.
pub fn tag_part_search_complete()
    ensures target { (kind : Kind) (bytes : List ℕ) (tag : TagLines) (reader : TagRefIter)
        (result : Result ObjectId decode.Error) → DecodesToTag kind bytes tag
        → IsAtStartOfTag kind bytes reader → NextIdOfTag reader result → (id : ObjectId)
        × (result ≡ Ok id) × DecodesToId tag.target id }
    ensures tagger { (kind : Kind) (bytes : List ℕ) (tag : TagLines) (reader : TagRefIter)
        (tagger : Option SignatureRef) → DecodesToTag kind bytes tag → IsAtStartOfTag kind bytes reader
        → FindsTagger reader tagger → IsTokenOfTagger tag.tagger (token_of_tagger tagger) }
    ensures no_token { (kind : Kind) (bytes : List ℕ) (tag : TagLines) (reader : TagRefIter)
        (ending : Ending) → DecodesToTag kind bytes tag → IsAtStartOfTag kind bytes reader
        → YieldsNoTagger reader ending → EndsAfterItsName tag }
{}
