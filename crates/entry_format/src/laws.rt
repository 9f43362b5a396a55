//! Laws about entries and their texts, which hold of the definitions alone. Each is the contract of
//! a function that does nothing.
//! function that does nothing.
ghost use Rattle.std.specs.Prelude.{◌≡◌, ℕ, List, Result};
ghost use Rattle.entry_order.specs.Exact.{CompletionsExist, OrderIsExact};
ghost use Rattle.entry_format.specs.EntryText.{IsSignedText};
ghost use Rattle.entry_format.specs.Nodes.{node_of};
ghost use Rattle.entry_format.specs.Plains.{PlainGraphs};
ghost use Rattle.entry_format.specs.Reading.{Reads};
ghost use Rattle.entry_format.specs.SealedEntry.{SealedEntry};
ghost use Rattle.entry_format.specs.Unsealing.{Unseals};
ghost use Rattle.roster.specs.declared.post.Post.{Post};
ghost use Rattle.entry_format.specs.declared.entry.Entry.{Entry};
ghost use Rattle.entry_format.specs.declared.plain.Plain.{Plain};
ghost use Rattle.entry_format.specs.declared.plain.EntryFault.{EntryFault};

/// A text has one entry and one signature.
pub fn texts_have_one_entry()
    ensures { (text : List ℕ) (entry other : Entry) (signature another : List ℕ) →
        IsSignedText text entry signature → IsSignedText text other another →
        (entry ≡ other) × (signature ≡ another) }
{}

/// At most one reading of a text is right.
pub fn one_reading_is_right()
    ensures { (text : List ℕ) (reading other : Result Plain EntryFault) →
        Reads text reading → Reads text other → reading ≡ other }
{}

/// At most one answer of unsealing is right.
pub fn one_unsealing_is_right()
    ensures { (machines : List Post) (election text : List ℕ)
        (answer other : Result SealedEntry EntryFault) →
        Unseals machines election text answer → Unseals machines election text other →
        answer ≡ other }
{}

/// Entries with different digests, whose makers are in the roster, have a completion.
pub fn completions_exist()
    ensures { CompletionsExist node_of }
{}

/// One of two survivors is known to precede the other exactly when it does in each completion, and
/// is known not to exactly when it does in none.
pub fn order_is_exact()
    ensures { OrderIsExact node_of }
{}

/// A graph of sealed entries is one of what they say.
pub fn plain_graphs()
    ensures { PlainGraphs }
{}
