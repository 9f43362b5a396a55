//! Laws of audits that go on while entries come, which follow from the definitions. Each is the
//! contract of a function that does nothing.
ghost use Rattle.live_auditor.specs.Same.{OrdersGiveOneSummary};

use evidence::entries_give_one_graph;

/// The same entries give the same answers, in whatever order they came.
pub fn orders_give_one_summary()
    ensures { OrdersGiveOneSummary }
{
    entries_give_one_graph();
}
