//! Laws about offices. Each is the contract of a function that does nothing.
ghost use Rattle.std.specs.Prelude.{◌≡◌, ◌<◌, ℕ, List, length, take};
ghost use Rattle.hss_sign.specs.Signs.{HssSigns};
ghost use Rattle.office_key.specs.Endorsements.{endorsement, office_public};
ghost use Rattle.office_key.specs.Offices.{IsOffice, max_signatures};
ghost use Rattle.office_key.specs.declared.office.Office.{Office};

/// A text is of one office.
pub fn texts_have_one_office()
    ensures { (text : List ℕ) (office other : Office) →
        IsOffice text office → IsOffice text other → office ≡ other }
{}

/// A proper prefix of an office's text is no office's text.
pub fn cut_texts_are_no_offices()
    ensures { (text : List ℕ) (office other : Office) (n : ℕ) → IsOffice text office →
        n < length text → ¬ IsOffice (take n text) other }
{}

/// What an office's key signs under a number that it has is a signature under its public key.
pub fn endorsements_are_good()
    ensures { (name message : List ℕ) (office : Office) → office.next < max_signatures →
        HssSigns (office_public name office.seed) message (endorsement name office message) }
{}
