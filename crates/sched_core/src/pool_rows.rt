//! Pools as rows, by name.
ghost use Rattle.std.specs.Prelude.{◌≡◌};
ghost use Rattle.sched_core.specs.Views.{pool_rows};

use crate::schedules::Schedule;
use graph_file::Name;
use indexmap::map::Iter;
use pool_book::Pool;
use sched_events::PoolRow;
use std::marker::Model;

impl Schedule {
    /// The pools, by name: their sizes, and what tries without an end take of each.
    pub fn pools(&self) -> PoolRows<'_>
        ensures { result ≡ pool_rows self.now.content }
    {
        PoolRows {
            rest: self.occupied.pools.iter(),
        }
    }
}

/// Pools as rows, by name. A row takes the same time however many there are.
///
/// Contracts see the rows that are left.
#[derive(Drop)]
pub struct PoolRows<'a> {
    rest: Iter<'a, Name, Pool>,
}

impl<'a> Model for PoolRows<'a> {
    ghost use Rattle.std.specs.Prelude.{List, map};
    ghost use Rattle.sched_events.specs.Rows.{PoolLine};
    ghost use Rattle.sched_core.specs.Inside.{row_in};

    ghost Value = { List PoolLine };

    ghost view = { λ i. map row_in i.rest };
}

impl<'a> Iterator for PoolRows<'a> {
    ghost use Rattle.std.specs.Iterator.{YieldsFirst, item_count};

    type Item = PoolRow<'a>;

    ghost next_gives = { YieldsFirst (λ rows. rows) };

    ghost remaining = { item_count (λ rows. rows) };

    fn next(&mut self) -> Option<PoolRow<'a>> {
        let (name, pool) = self.rest.next()?;
        Some(PoolRow {
            name,
            size: pool.size().get(),
            occupied: pool.occupied(),
            open_slots: pool.open_slots(),
        })
    }
}
