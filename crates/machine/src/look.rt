ghost use Rattle.std.specs.Prelude.{◌≡◌};
ghost use Rattle.machine.specs.InRange.{in_range};
ghost use Rattle.machine.specs.Machine.{look};

use crate::machine::Machine;
use crate::thief::Thief;
use crate::worker::WorkerCall;
use stores::{Look, all_in_range};

impl Machine {
    // One look at the machine. The worker's call and the thieves are handed in, as copies that the caller goes on with.
    pub(crate) fn look(self, call: WorkerCall, thieves: [Thief; 8]) -> Look
        requires { (call ≡ self.worker.call) × (thieves ≡ self.thieves) }
        ensures { result ≡ look self }
    {
        let calls = call.in_range() & all_in_range(&thieves);
        Look::at(
            self.sizes,
            self.head,
            self.tail,
            self.buffer,
            self.spacing,
            calls,
        )
    }

    // Whether sizes, number of pending stores, spacing count and every index are in range.
    pub fn in_range(self) -> bool
        ensures { result ≡ in_range self }
    {
        self.look(self.worker.call, self.thieves).ranged
    }
}
