//! The runs, one after another.
ghost use Rattle.std.specs.Prelude.{◌≡◌, slice_get};
ghost use Rattle.std.specs.Option.{option_copied};

use crate::Runs;
use sched_state::Run;
use std::marker::Model;

impl Runs {
    /// The runs, in their order.
    pub fn iter(&self) -> RunRows<'_>
        ensures { result ≡ self.now.runs }
    {
        RunRows {
            runs: self,
            position: 0,
        }
    }
}

/// Runs in their order. Each is read at its position.
///
/// Contracts see those that are left.
#[derive(Debug, Drop)]
pub struct RunRows<'a> {
    runs: &'a Runs,
    // The position of the first that is left.
    position: usize,
}

impl<'a> Model for RunRows<'a> {
    ghost use Rattle.std.specs.Prelude.{List, drop};
    ghost use Rattle.sched_state.specs.declared.runs.Run.{Run};

    ghost Value = { List Run };

    ghost view = { λ i. drop i.position i.runs.now.runs };
}

impl<'a> RunRows<'a> {
    /// The first run that is left, which stays.
    pub fn first(&self) -> Option<&'a Run>
        ensures { option_copied result ≡ slice_get self.now 0 }
    {
        if self.position < self.runs.len() {
            Some(self.runs.get(self.position))
        } else {
            None
        }
    }
}

impl<'a> Iterator for RunRows<'a> {
    ghost use Rattle.std.specs.Iterator.{YieldsFirstRef, item_count};

    type Item = &'a Run;

    ghost next_gives = { YieldsFirstRef (λ runs. runs) };

    ghost remaining = { item_count (λ runs. runs) };

    fn next(&mut self) -> Option<&'a Run> {
        if self.position >= self.runs.len() {
            return None;
        }
        let run = self.runs.get(self.position);
        self.position += 1;
        Some(run)
    }
}
