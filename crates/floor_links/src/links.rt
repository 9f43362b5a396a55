//! The links between all machines.
ghost use Rattle.std.specs.Prelude.{◌≡◌, ◌<◌, [], length, map, slice_index_or};

use crate::parcel::Broadcast;
use broadcast_queues::Link;
use std::marker::Model;

/// The links of a polling place, a row for each sender, and in it one for each receiver. The one
/// from a machine to itself carries nothing.
#[derive(Drop)]
pub struct Links {
    rows: Vec<Vec<Link<Broadcast>>>,
}

impl Model for Links {
    ghost use Rattle.std.specs.Prelude.{List, map};
    ghost use Rattle.broadcast_queues.specs.Ends.{LinkView};

    ghost Value = { List (List LinkView) };

    ghost view = { λ l. map (λ row. row.items) l.rows.items };
}

impl Links {
    /// The links in rows by senders, the link to machine `to` at the place `to` of each.
    pub fn new(rows: Vec<Vec<Link<Broadcast>>>) -> Links
        ensures { result ≡ map (λ row. row.items) rows.items }
    {
        Links { rows }
    }

    /// The rows, as they were given.
    pub fn into_rows(self) -> Vec<Vec<Link<Broadcast>>>
        ensures { map (λ row. row.items) result.items ≡ self }
    {
        let Links { rows } = self;
        rows
    }

    /// The link from machine `from` to machine `to`.
    pub fn link(&self, from: usize, to: usize) -> &Link<Broadcast>
        requires from { from < length self.now }
        requires to { to < length (slice_index_or self.now from []) }
        ensures { result.now ≡ slice_index_or (slice_index_or self.now from []) to result.now }
    {
        &self.rows[from][to]
    }
}
