//! What a proof shows of the survivors' order, as rules are evaluated by it.
use crate::kinds::Kinds;
use crate::listing::Listing;
use entry_order::Three;
use rule_language::{Formula, Row};
use rule_meaning::knowledge::Knowledge;
use rule_meaning::quantifier::Quantifier;
use rule_meaning::scope::Scope;

/// What a proof's lines say, and where the rows of each kind are.
#[derive(Drop)]
pub(crate) struct Tables<'a> {
    pub(crate) kinds: Kinds,
    pub(crate) listing: Listing<'a>,
}

impl<'a> Knowledge for Tables<'a> {
    ghost use Rattle.std.specs.Prelude.{length};
    ghost use Rattle.audit_proof.specs.inside.Kinds.{AreKinds};
    ghost use Rattle.audit_proof.specs.inside.Listing.{IsSearchable, listing_before, listing_whole};

    ghost count = { λ tables. length tables.listing.numbers.items };

    ghost order = { λ tables. listing_before tables.listing };

    ghost wholes = { λ tables. listing_whole tables.listing };

    ghost serves = { λ tables rows. IsSearchable tables.listing × AreKinds rows tables.kinds };

    fn before(&self, y: usize, x: usize) -> Three {
        self.listing.before(y, x)
    }

    fn whole(&self, x: usize) -> bool {
        self.listing.whole(x)
    }

    #[tactic(auto, using(rule_meaning::proofs::Visits::all_visited))]
    fn visited(
        &self,
        quantifier: Quantifier,
        _body: &Formula,
        _scope: &Scope<'_>,
        rows: &[Row],
    ) -> Option<&[usize]> {
        Some(self.kinds.of(quantifier.kind, rows))
    }
}
