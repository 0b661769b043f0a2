//! Counts of the faults of a store.
ghost use Rattle.std.specs.Prelude.{◌≡◌};
ghost use Rattle.disk_defs.specs.Count.{FailedIn, FailedInBoth, IsCountedIn, faults_after_in, no_faults, one_more_in, one_more_in_both};

use disk_defs::{Area, Fault};
use std::marker::Model;

/// How many calls failed on each area. Each count stays at its last value.
#[derive(Drop)]
pub(crate) struct FaultCounts {
    image: u64,
    journal: u64,
}

impl Model for FaultCounts {
    ghost use Rattle.disk_defs.specs.Count.{Faults};

    ghost Value = { Faults };

    ghost view = { λ counts. record { image = counts.image; journal = counts.journal } };
}

impl FaultCounts {
    pub(crate) fn new() -> FaultCounts
        ensures { result ≡ no_faults }
    {
        FaultCounts {
            image: 0,
            journal: 0,
        }
    }

    /// Counts a fault on an area.
    pub(crate) fn add(&mut self, area: Area)
        ensures faults { self.new ≡ one_more_in area self.old }
        ensures failed { FailedIn area self.old self.new }
    {
        match area {
            Area::Image => self.image = self.image.saturating_add(1),
            Area::Journal => self.journal = self.journal.saturating_add(1),
        }
    }

    /// Counts a fault on both areas.
    pub(crate) fn add_both(&mut self)
        ensures faults { self.new ≡ one_more_in_both self.old }
        ensures failed { FailedInBoth self.old self.new }
    {
        self.image = self.image.saturating_add(1);
        self.journal = self.journal.saturating_add(1);
    }

    /// Counts a fault on an area where there is one.
    pub(crate) fn counted<T>(&mut self, area: Area, outcome: Result<T, Fault>) -> Result<T, Fault>
        ensures same { result ≡ outcome }
        ensures faults { self.new ≡ faults_after_in area result self.old }
        ensures counted { IsCountedIn area result self.old self.new }
    {
        if outcome.is_err() {
            self.add(area);
        }
        outcome
    }
}
