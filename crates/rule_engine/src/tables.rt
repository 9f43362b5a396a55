//! What is known of survivors' order, and where their rows are found.
use crate::index::Indexes;
use crate::visiting::visited_for;
use entry_order::Three;
use precedence::Rows;
use rule_language::{Formula, Row};
use rule_meaning::knowledge::Knowledge;
use rule_meaning::quantifier::Quantifier;
use rule_meaning::scene::Scene;
use rule_meaning::scope::Scope;

/// The survivors' rows, with what is known of them.
pub(crate) type Survivors<'a> = Scene<'a, Tables<'a>>;

/// The survivors' order, and where their rows are found.
#[derive(Drop)]
pub(crate) struct Tables<'a> {
    pub(crate) order: &'a Rows,
    pub(crate) indexes: Indexes,
}

impl<'a> Knowledge for Tables<'a> {
    ghost use Rattle.precedence.specs.Known.{known_before, known_count, known_whole};
    ghost use Rattle.rule_engine.specs.inside.Index.{AreIndexesOf};

    ghost count = { λ tables. known_count tables.order.now };

    ghost order = { λ tables. known_before tables.order.now };

    ghost wholes = { λ tables. known_whole tables.order.now };

    ghost serves = { λ tables rows. AreIndexesOf rows tables.indexes };

    fn before(&self, y: usize, x: usize) -> Three {
        self.order.before(y, x)
    }

    fn whole(&self, x: usize) -> bool {
        self.order.whole(x)
    }

    fn visited(
        &self,
        quantifier: Quantifier,
        body: &Formula,
        scope: &Scope<'_>,
        rows: &[Row],
    ) -> Option<&[usize]> {
        visited_for(quantifier, body, scope, rows, &self.indexes)
    }
}
