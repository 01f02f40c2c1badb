ghost use Rattle.stores.specs.Types.{BeginPut, BeginSteal, BeginTake, ClientStore, Done, Drain, Entry, ThiefStep, WorkerStep};
ghost use Rattle.std.specs.Prelude.{◌≡◌};

use crate::done::Done;
use terms::Entry;

// What can be done with a machine: any entry is obeyed, and for each kind of entry there is an operation, which is `obey` of that kind.
pub trait Operations: Sized {
    // What obeying an entry hands back.
    ghost obeyed: { Self → Entry → Done Self };

    // An entry is obeyed, whichever it is.
    fn obey(self, entry: Entry) -> Done<Self>
        ensures { result ≡ obeyed self entry };

    // The oldest pending store reaches memory.
    fn drain(mut self) -> Done<Self>
        ensures { result ≡ obeyed self Drain }
    {
        self.obey(Entry::Drain)
    }

    // The worker makes a store that has nothing to do with the queue.
    fn client_store(mut self) -> Done<Self>
        ensures { result ≡ obeyed self ClientStore }
    {
        self.obey(Entry::ClientStore)
    }

    // The worker begins to put the task with this number.
    fn begin_put(mut self, task: u32) -> Done<Self>
        ensures { result ≡ obeyed self (BeginPut task) }
    {
        self.obey(Entry::BeginPut(task))
    }

    // The worker begins to take a task, if enough stores have spaced it from the take before.
    fn begin_take(mut self) -> Done<Self>
        ensures { result ≡ obeyed self BeginTake }
    {
        self.obey(Entry::BeginTake)
    }

    // The worker's call makes its next step.
    fn worker_step(mut self) -> Done<Self>
        ensures { result ≡ obeyed self WorkerStep }
    {
        self.obey(Entry::WorkerStep)
    }

    // The thief with this number, counted from 0, begins to steal.
    fn begin_steal(mut self, thief: u32) -> Done<Self>
        ensures { result ≡ obeyed self (BeginSteal thief) }
    {
        self.obey(Entry::BeginSteal(thief))
    }

    // The call of the thief with this number makes its next step.
    fn thief_step(mut self, thief: u32) -> Done<Self>
        ensures { result ≡ obeyed self (ThiefStep thief) }
    {
        self.obey(Entry::ThiefStep(thief))
    }
}
