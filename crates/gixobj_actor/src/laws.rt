//! Laws of times and actors: round trips and unique decoding. Each function is empty; its contract is the
//! law.
ghost use Rattle.std.specs.Prelude.{◌≡◌, ℕ, ℤ, Contains, FitsSigned, List, []};
ghost use Rattle.std.specs.Int.{w64};
ghost use Rattle.gixobj_actor.specs.Actor.{IsActorLine, IsMalformedActorLine, encode_actor};
ghost use Rattle.gixobj_actor.specs.ActorWriting.{IsLegalActor};
ghost use Rattle.gixobj_actor.specs.Date.{IsOffset, DecodesToTime, encode_time};
ghost use Rattle.gixobj_hash.specs.Bytes.{newline};

/// An encoded time decodes to the same time, and bytes decode to at most one time.
pub fn time_round_trips()
    ensures same_time { (seconds offset : ℤ) → FitsSigned w64 seconds → IsOffset offset
        → DecodesToTime (encode_time seconds offset) seconds offset }
    ensures one_time { (bytes : List ℕ) (seconds offset seconds' offset' : ℤ)
        → DecodesToTime bytes seconds offset → DecodesToTime bytes seconds' offset' → (seconds ≡ seconds')
        × (offset ≡ offset') }
{}

/// A line decodes to at most one actor, and a line with a newline to none.
pub fn actor_line_decodes_uniquely()
    ensures one_actor { (line name email time rest name' email' time' rest' : List ℕ)
        → IsActorLine line name email time rest → IsActorLine line name' email' time' rest'
        → (name ≡ name') × (email ≡ email') × (time ≡ time') × (rest ≡ rest') }
    ensures no_newline { (line : List ℕ) → Contains line newline → IsMalformedActorLine line }
{}

/// An encoded actor decodes to the same actor, and nothing follows its time.
pub fn actor_round_trips()
    ensures { (name email : List ℕ) (seconds offset : ℤ) → IsLegalActor name email
        → FitsSigned w64 seconds → IsOffset offset
        → IsActorLine (encode_actor name email (encode_time seconds offset)) name email
        (encode_time seconds offset) [] }
{}
