ghost use Rattle.std.specs.Prelude.{◌≡◌};
ghost use Rattle.terms.specs.Kinds.{party_number, thief_of};

// The seven kinds of entry that a schedule is made of. A call is begun by one entry, which leaves memory alone, and then
// makes its steps, one to an entry.
#[derive(Clone, Copy, Debug, PartialEq, Eq)]
pub enum Entry {
    // The oldest pending store reaches memory.
    Drain,
    // The worker makes a store that has nothing to do with the queue.
    ClientStore,
    // The worker begins to put the task with this number.
    BeginPut(u32),
    // The worker begins to take a task.
    BeginTake,
    // The worker's call makes its next step.
    WorkerStep,
    // The thief with this number, counted from 0, begins to steal.
    BeginSteal(u32),
    // The call of the thief with this number makes its next step.
    ThiefStep(u32),
}

impl Entry {
    // Whose entry it is: the worker is party 0, and thief i is party i + 1.
    pub fn party(self) -> usize
        ensures { result ≡ party_number self }
    {
        match self {
            Entry::Drain
            | Entry::ClientStore
            | Entry::BeginPut(_)
            | Entry::BeginTake
            | Entry::WorkerStep => 0,
            Entry::BeginSteal(thief) => thief as usize + 1,
            Entry::ThiefStep(stepping) => stepping as usize + 1,
        }
    }

    // The thief that it names; 0, the first, where it names none.
    pub fn thief(self) -> u32
        ensures { result ≡ thief_of self }
    {
        match self {
            Entry::Drain
            | Entry::ClientStore
            | Entry::BeginPut(_)
            | Entry::BeginTake
            | Entry::WorkerStep => 0,
            Entry::BeginSteal(beginner) => beginner,
            Entry::ThiefStep(stepper) => stepper,
        }
    }
}
