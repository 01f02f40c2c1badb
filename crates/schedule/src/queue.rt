ghost use Rattle.std.specs.Prelude.{◌≡◌, refl};
ghost use Rattle.cas.specs.Linearizable.{ff_cl};
ghost use Rattle.claim.specs.Implementation.{Implementation};
ghost use Rattle.machine.specs.Linearizable.{ff_the};
ghost use Rattle.schedule.specs.Types.{Entry};
ghost use Rattle.stores.specs.Done.{handing};

use stores::Operations;

// The machine of a queue, for a run that is the same on either: which queue it is, and that the machine obeys an entry as that queue does.
pub(crate) trait QueueMachine: Operations + Copy {
    ghost queue: { Implementation Self Entry };

    ghost obeys_as_queue: { (m : Self) (e : Entry) → Self.obeyed m e ≡ handing (queue.outcome m e) (queue.hidden m e) (queue.next m e) };
}

impl QueueMachine for machine::Machine {
    ghost queue = { ff_the };

    ghost obeys_as_queue = { λ m e. refl };
}

impl QueueMachine for cas::Machine {
    ghost queue = { ff_cl };

    ghost obeys_as_queue = { λ m e. refl };
}
