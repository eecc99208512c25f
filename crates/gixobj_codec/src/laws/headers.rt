//! Laws on searching headers by name. Each function is empty, and its contract is the law.
ghost use Rattle.std.specs.Prelude.{ℕ, List, None, Option, Result};
ghost use Rattle.std.specs.Iterator.{YieldsFirstBy, YieldsThen};
ghost use Rattle.std.specs.List.{AllZip};
ghost use Rattle.std.proofs.lemmas.Iterator.{YieldsList};
ghost use Rattle.bstr.specs.BStr.{bstr_bytes};
ghost use Rattle.bstr.specs.declared.bstr.BStr.{BStr};
ghost use Rattle.gixobj_commit.specs.ExtraHeaders.{FindsPosition, FindsValue, NextOfAll, IsFirstPosition, IsFirstValue};
ghost use Rattle.gixobj_commit.specs.ExtraHeaders.{pair_of, searched, searched_name, values_named};
ghost use Rattle.gixobj_grammar.specs.RemainingHeaders.{remaining_headers, remaining_owned_headers};
ghost use Rattle.gixobj_commit.specs.Mergetags.{NextMergetag, IsTagOf, IsTagOrNone, mergetag_kind, remaining_mergetags};
ghost use Rattle.gixobj_commit.specs.Mergetags.{tag_if_ok};
ghost use Rattle.gixobj_grammar.specs.declared.extra_headers.BorrowedHeaders.{BorrowedHeaders};
ghost use Rattle.gixobj_commit.specs.declared.extra_headers.FindAll.{FindAll};
ghost use Rattle.gixobj_commit.specs.declared.extra_headers.Mergetags.{Mergetags};
ghost use Rattle.gixobj_grammar.specs.declared.extra_headers.OwnedHeaders.{OwnedHeaders};
ghost use Rattle.gixobj_hash.specs.declared.decode.Error.{Error};
ghost use Rattle.gixobj_tag.specs.TagFormat.{TagLines};
ghost use Rattle.gixobj_tag.specs.declared.tag.TagRef.{TagRef};

/// Searches of a borrowed commit's headers are complete.
///
/// For a name, `find` returns the value of the first header, and `find_pos` its position from 0. Both return
/// `None` if no header has the name. `find_all` yields all values in order.
pub fn borrowed_header_search_complete()
    ensures value { (name : List ℕ) (headers : BorrowedHeaders) (result : Option BStr)
        → FindsValue (YieldsFirstBy pair_of remaining_headers) name headers result
        → IsFirstValue name (remaining_headers headers) result }
    ensures position { (name : List ℕ) (headers : BorrowedHeaders) (result : Option ℕ)
        → FindsPosition (YieldsFirstBy pair_of remaining_headers) name headers result
        → IsFirstPosition name (remaining_headers headers) result }
    ensures values { (values : FindAll BorrowedHeaders)
        → YieldsList (NextOfAll (YieldsFirstBy pair_of remaining_headers)) bstr_bytes values
        (values_named (searched_name values) (remaining_headers (searched values))) }
{}

/// Searches of an owned commit's headers are complete.
///
/// For a name, `find` returns the value of the first header, and `find_pos` its position from 0. Both return
/// `None` if no header has the name. `find_all` yields all values in order.
pub fn owned_header_search_complete()
    ensures value { (name : List ℕ) (headers : OwnedHeaders) (result : Option BStr)
        → FindsValue (YieldsFirstBy pair_of remaining_owned_headers) name headers result
        → IsFirstValue name (remaining_owned_headers headers) result }
    ensures position { (name : List ℕ) (headers : OwnedHeaders) (result : Option ℕ)
        → FindsPosition (YieldsFirstBy pair_of remaining_owned_headers) name headers result
        → IsFirstPosition name (remaining_owned_headers headers) result }
    ensures values { (values : FindAll OwnedHeaders)
        → YieldsList (NextOfAll (YieldsFirstBy pair_of remaining_owned_headers)) bstr_bytes values
        (values_named (searched_name values) (remaining_owned_headers (searched values))) }
{}

/// `mergetags` decodes every `mergetag` header of a borrowed commit, in order.
///
/// A run to the end yields, for each value, its tag or `Malformed`. Given for each value its tag, or that it
/// is malformed, every run yields these tags, and an error for each malformed value.
pub fn borrowed_mergetag_search_complete()
    ensures yielded { (tags after : Mergetags BorrowedHeaders)
        (consumed : List (Result TagRef Error))
        → YieldsThen (NextMergetag (YieldsFirstBy pair_of remaining_headers)) tags consumed None after
        → AllZip (IsTagOf (mergetag_kind tags)) (remaining_mergetags remaining_headers tags) consumed }
    ensures tags { (tags : Mergetags BorrowedHeaders) (read : List (Option TagLines))
        → AllZip (IsTagOrNone (mergetag_kind tags)) (remaining_mergetags remaining_headers tags) read
        → YieldsList (NextMergetag (YieldsFirstBy pair_of remaining_headers)) tag_if_ok tags read }
{}

/// `mergetags` decodes every `mergetag` header of an owned commit, in order.
///
/// A run to the end yields, for each value, its tag or `Malformed`. Given for each value its tag, or that it
/// is malformed, every run yields these tags, and an error for each malformed value.
pub fn owned_mergetag_search_complete()
    ensures yielded { (tags after : Mergetags OwnedHeaders) (consumed : List (Result TagRef Error))
        → YieldsThen (NextMergetag (YieldsFirstBy pair_of remaining_owned_headers)) tags consumed None
        after → AllZip (IsTagOf (mergetag_kind tags)) (remaining_mergetags remaining_owned_headers tags)
        consumed }
    ensures tags { (tags : Mergetags OwnedHeaders) (read : List (Option TagLines))
        → AllZip (IsTagOrNone (mergetag_kind tags)) (remaining_mergetags remaining_owned_headers tags) read
        → YieldsList (NextMergetag (YieldsFirstBy pair_of remaining_owned_headers)) tag_if_ok tags
        read }
{}
