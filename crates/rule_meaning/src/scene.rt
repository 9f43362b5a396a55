//! What a rule is evaluated over.
use rule_language::Row;

/// The survivors' rows, and what is known of their order.
#[derive(Drop)]
pub struct Scene<'a, K> {
    pub rows: &'a [Row],
    pub known: K,
}
