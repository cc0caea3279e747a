//! The sources of events whose generator a line seeds.

ghost use Rattle.std.specs.Prelude.{◌≡◌};
ghost use Rattle.seeded_turns.specs.DrawnEvents.{pcg32_stream, seeded_stream, drawn_fault, drawn_step};

use crate::EventSource;
use daemon::{Daemon, Seeded};
use fault_injector::Injector;
use rand_core::SeedableRng;
use rand_pcg::Pcg32;
use rule_engine::{Event, Net, Rules, Want};
use std::alloc::Global;

/// A daemon that chooses by the words of the PCG with this seed.
pub fn daemon_of_seed(alloc: Global, seed: u64) -> Seeded<Pcg32>
    ensures { pcg32_stream result ≡ seeded_stream seed }
{
    Seeded::new(alloc, Pcg32::seed_from_u64(seed))
}

/// An injector that draws faults by the words of the PCG with this seed.
pub fn injector_of_seed(seed: u64) -> Injector<Pcg32>
    ensures { pcg32_stream result ≡ seeded_stream seed }
{
    Injector::new(Pcg32::seed_from_u64(seed))
}

impl EventSource for Seeded<Pcg32> {
    ghost draws = { drawn_step };

    ghost stream = { λ d. pcg32_stream d };

    /// A step of the nodes that the daemon chooses; `None` exactly if no node is enabled.
    fn next_event<R: Rules>(&mut self, net: &Net<R>) -> Result<Option<Event>, Want> {
        let choice = self.choose(net.enabled(), R::CENTRAL)?;
        Ok(choice.map(|choice| Event::Step(choice)))
    }
}

impl EventSource for Injector<Pcg32> {
    ghost draws = { drawn_fault };

    ghost stream = { λ i. pcg32_stream i };

    /// A fault that the network accepts; `None` exactly if the network has no node. Takes no memory.
    fn next_event<R: Rules>(&mut self, net: &Net<R>) -> Result<Option<Event>, Want> {
        Ok(self.draw(net))
    }
}
