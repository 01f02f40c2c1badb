ghost use Rattle.std.specs.Prelude.{◌≡◌};
ghost use Rattle.stores.specs.Lock.{is_nobody};

// Who holds the lock.
#[derive(Clone, Copy)]
pub enum Holder {
    Nobody,
    TheWorker,
    // The thief with this number.
    TheThief(u32),
}

// The queue's lock.
#[derive(Clone, Copy)]
pub struct Lock {
    pub holder: Holder,
}

impl Lock {
    // Whether nobody holds it.
    pub fn is_free(self) -> bool
        ensures { result ≡ is_nobody self.holder }
    {
        let holder = self.holder;
        match holder {
            Holder::Nobody => true,
            Holder::TheWorker => false,
            Holder::TheThief(_) => false,
        }
    }
}
