//! Laws of the grammar. They are about the definitions that the reader's clauses cite, and make no
//! call of the reader: each is a function with nothing to run, whose contract is the law.
//!
//! An input is all that comes; a session hears it up to the first `quit` or `shutdown`.

ghost use Rattle.std.specs.Prelude.{◌≡◌, List, ℕ, ◌++◌};
ghost use Rattle.dm_proto.specs.declared.heard.Heard.{Heard};
ghost use Rattle.dm_proto.specs.Stream.{Ending, Hears, Consumes};
ghost use Rattle.dm_proto.specs.Session.{Closing, GoesOn, HearsSession};

/// Every input is heard in some way: as a list of items and an ending.
pub fn every_input_is_heard()
    ensures { (input : List ℕ) → (items : List Heard) × (ending : Ending) × Hears input items ending }
{}

/// No input is heard in two ways. What `feed` ensures is of the bytes alone, so the pieces in which
/// they come make no difference.
pub fn an_input_is_heard_in_one_way()
    ensures { (input : List ℕ) (first second : List Heard) (ending last : Ending) →
        Hears input first ending → Hears input second last → (first ≡ second) × (ending ≡ last) }
{}

/// What was consumed stays heard, whatever is heard of what is left.
pub fn what_was_consumed_is_a_front()
    ensures { (input left : List ℕ) (items more : List Heard) (ending : Ending) →
        Consumes input items left → Hears left more ending → Hears input (items ++ more) ending }
{}

/// Every session is heard in some way.
pub fn every_session_is_heard()
    ensures { (input : List ℕ) →
        (items : List Heard) × (closing : Closing) × HearsSession input items closing }
{}

/// No session is heard in two ways.
pub fn a_session_is_heard_in_one_way()
    ensures { (input : List ℕ) (first second : List Heard) (closing last : Closing) →
        HearsSession input first closing → HearsSession input second last →
        (first ≡ second) × (closing ≡ last) }
{}

/// What was consumed stays heard by a session, as long as nothing in it ends the session.
pub fn what_was_consumed_is_a_sessions_front()
    ensures { (input left : List ℕ) (items more : List Heard) (closing : Closing) → GoesOn items →
        Consumes input items left → HearsSession left more closing →
        HearsSession input (items ++ more) closing }
{}
