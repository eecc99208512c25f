//! Laws of commit messages (git-commit, "DISCUSSION"; git-interpret-trailers). Each function is empty; its contract
//! is the law.
ghost use Rattle.std.specs.Prelude.{◌≡◌, ◌↔◌, ◌++◌, ℕ, List, Ok, Option, Some, drop, map, take};
ghost use Rattle.std.specs.Iterator.{Drains};
ghost use Rattle.gixobj_text.specs.MessageBlocks.{AreBlocksFrom, BlockView, joined_parts};
ghost use Rattle.gixobj_text.specs.BodyLines.{DecodesToTrailer, trailer_parts};
ghost use Rattle.gixobj_text.specs.Filters.{NextFiltered, remaining_filtered};
ghost use Rattle.gixobj_text.specs.BlockSteps.{NextBlock, block_view, remaining_block_bytes, first_start};
ghost use Rattle.gixobj_text.specs.TrailerSteps.{NextTrailer, trailer_view, remaining_trailers};
ghost use Rattle.gixobj_text.specs.MessageTrailers.{HasTrailerBlock, HasTrailers};
ghost use Rattle.gixobj_text.specs.Titles.{SplitsTitle};
ghost use Rattle.gixobj_text.specs.TrailerBlocks.{IsTrailerBlockStart};
ghost use Rattle.gixobj_text.specs.Trailers.{TrailerView};
ghost use Rattle.gixobj_text.specs.declared.commit.message.body.blocks.MessageBlock.{MessageBlock};
ghost use Rattle.gixobj_text.specs.declared.commit.message.body.blocks.MessageBlocks.{MessageBlocks};
ghost use Rattle.gixobj_text.specs.declared.commit.message.body.filters.Filtered.{Filtered};
ghost use Rattle.gixobj_text.specs.declared.commit.message.body.trailers.TrailerRef.{TrailerRef};
ghost use Rattle.gixobj_text.specs.declared.commit.message.body.trailers.Trailers.{Trailers};

/// A message splits into at most one title and one body.
pub fn message_split_is_unique()
    ensures { (message title title' : List ℕ) (body body' : Option (List ℕ))
        → SplitsTitle message title body → SplitsTitle message title' body' → (title ≡ title')
        × (body ≡ body') }
{}

/// A trailer line decodes to the parts of `trailer_parts`, and so to at most one token and one value.
pub fn trailer_line_decodes()
    ensures { (content token value : List ℕ) → DecodesToTrailer content token value
        ↔ (trailer_parts content ≡ Some (token, value)) }
{}

/// A body has at most one start of its trailer block.
pub fn trailer_block_start_is_unique()
    ensures { (body : List ℕ) (start start' : ℕ) → IsTrailerBlockStart body start
        → IsTrailerBlockStart body start' → start ≡ start' }
{}

/// A message has at most one trailer block, and at most one list of trailers.
pub fn trailers_are_unique()
    ensures block { (message block block' : List ℕ) → HasTrailerBlock message block
        → HasTrailerBlock message block' → block ≡ block' }
    ensures trailers { (message : List ℕ) (trailers trailers' : List TrailerView)
        → HasTrailers message trailers → HasTrailers message trailers' → trailers ≡ trailers' }
{}

/// A body has at most one list of blocks.
pub fn blocks_are_unique()
    ensures { (start : ℕ) (body : List ℕ) (blocks blocks' : List BlockView)
        → AreBlocksFrom start body blocks → AreBlocksFrom start body blocks' → blocks ≡ blocks' }
{}

/// The parts of a body append to the body: `without_trailer` and the rest, or the blocks in order.
pub fn parts_append_to_body()
    ensures without_trailer { (start : ℕ) (body : List ℕ)
        → take start body ++ drop start body ≡ body }
    ensures blocks { (start : ℕ) (body : List ℕ) (blocks : List BlockView)
        → AreBlocksFrom start body blocks → joined_parts blocks ≡ body }
{}

/// A drained iterator has yielded all blocks, all trailers or all filtered trailers, in order.
pub fn readers_yield_all()
    ensures blocks { (before : MessageBlocks) (blocks : List MessageBlock)
        → Drains NextBlock before blocks
        → AreBlocksFrom (first_start before) (remaining_block_bytes before) (map block_view blocks) }
    ensures trailers { (before : Trailers) (trailers : List TrailerRef)
        → Drains NextTrailer before (map (λ it. Ok it) trailers)
        → map trailer_view trailers ≡ remaining_trailers before }
    ensures filtered { (before : Filtered) (trailers : List TrailerRef)
        → Drains NextFiltered before (map (λ it. Ok it) trailers)
        → map trailer_view trailers ≡ remaining_filtered before }
{}
