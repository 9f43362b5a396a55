//! Kinds of entries, and their fields.
ghost use Rattle.std.specs.Prelude.{◌≡◌};
ghost use Rattle.rule_language.specs.Kinds.{
  kind_word,
  kind_named,
  field_word,
  field_named,
  has_field,
  sort_of_field,
  is_ordered,
  is_same_sort,
};

/// A kind of entries, by what their makers did.
#[derive(Clone, Copy)]
pub enum Kind {
    /// Every entry.
    Any,
    Opened,
    Authorise,
    /// An override that cancels the session.
    Override,
    /// An override that casts the ballot that was committed.
    Forced,
    Closed,
    Activate,
    Commit,
    Cast,
    Cancel,
    Challenge,
}

// The kinds, in the order of their declaration.
const KINDS: &[Kind] = &[
    Kind::Any,
    Kind::Opened,
    Kind::Authorise,
    Kind::Override,
    Kind::Forced,
    Kind::Closed,
    Kind::Activate,
    Kind::Commit,
    Kind::Cast,
    Kind::Cancel,
    Kind::Challenge,
];

impl Kind {
    /// The kind's word in texts of rules.
    pub fn word(self) -> &'static [u8]
        ensures { result.now ≡ kind_word self }
    {
        match self {
            Kind::Any => b"entry",
            Kind::Opened => b"opened",
            Kind::Authorise => b"authorise",
            Kind::Override => b"override",
            Kind::Forced => b"forced",
            Kind::Closed => b"closed",
            Kind::Activate => b"activate",
            Kind::Commit => b"commit",
            Kind::Cast => b"cast",
            Kind::Cancel => b"cancel",
            Kind::Challenge => b"challenge",
        }
    }

    /// The kind that the word names.
    pub fn of_word(word: &[u8]) -> Option<Kind>
        ensures { result ≡ kind_named word.now }
    {
        for &kind in KINDS {
            if word == kind.word() {
                return Some(kind);
            }
        }
        None
    }

    /// Whether entries of the kind have the field.
    pub(crate) fn has(self, field: Field) -> bool
        ensures { result ≡ has_field self field }
    {
        match field {
            Field::Maker | Field::Number => true,
            Field::Session => self.has_session(),
            Field::Ballot => self.has_ballot(),
            Field::Booth => matches!(self, Kind::Authorise),
        }
    }

    fn has_session(self) -> bool
        ensures { result ≡ has_field self Field.Session }
    {
        !matches!(self, Kind::Any | Kind::Opened | Kind::Closed)
    }

    fn has_ballot(self) -> bool
        ensures { result ≡ has_field self Field.Ballot }
    {
        matches!(self, Kind::Commit | Kind::Cast | Kind::Challenge)
    }
}

/// A field of an entry.
#[derive(Clone, Copy, PartialEq, Eq)]
pub enum Field {
    Maker,
    Booth,
    Number,
    Session,
    Ballot,
}

// The fields, in the order of their declaration.
const FIELDS: &[Field] = &[
    Field::Maker,
    Field::Booth,
    Field::Number,
    Field::Session,
    Field::Ballot,
];

impl Field {
    /// The field's word in texts of rules.
    pub fn word(self) -> &'static [u8]
        ensures { result.now ≡ field_word self }
    {
        match self {
            Field::Maker => b"maker",
            Field::Booth => b"booth",
            Field::Number => b"number",
            Field::Session => b"session",
            Field::Ballot => b"ballot",
        }
    }

    /// The field that the word names.
    pub fn of_word(word: &[u8]) -> Option<Field>
        ensures { result ≡ field_named word.now }
    {
        for &field in FIELDS {
            if word == field.word() {
                return Some(field);
            }
        }
        None
    }

    /// The sort of the field's values.
    pub(crate) fn sort(self) -> Sort
        ensures { result ≡ sort_of_field self }
    {
        match self {
            Field::Maker | Field::Booth => Sort::Machine,
            Field::Number => Sort::Count,
            Field::Session => Sort::Session,
            Field::Ballot => Sort::Ballot,
        }
    }
}

/// The sort of a term: terms of one sort can be compared.
#[derive(Clone, Copy)]
pub(crate) enum Sort {
    Machine,
    Count,
    Session,
    Ballot,
}

impl Sort {
    /// Whether the sort has an order.
    pub(crate) fn is_ordered(self) -> bool
        ensures { result ≡ is_ordered self }
    {
        matches!(self, Sort::Count | Sort::Session)
    }

    /// Whether this is the other sort.
    pub(crate) fn is(self, other: Sort) -> bool
        ensures { result ≡ is_same_sort self other }
    {
        match self {
            Sort::Machine => matches!(other, Sort::Machine),
            Sort::Count => matches!(other, Sort::Count),
            Sort::Session => matches!(other, Sort::Session),
            Sort::Ballot => matches!(other, Sort::Ballot),
        }
    }
}
