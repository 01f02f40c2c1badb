ghost use Rattle.std.specs.Prelude.{◌≡◌};
ghost use Rattle.stores.specs.Done.{handing};

use terms::Outcome;

// What an operation on a machine hands back: the machine after it, the entry's outcome, and how far memory lags.
#[derive(Clone, Copy)]
pub struct Done<M> {
    pub machine: M,
    pub outcome: Outcome,
    // How many stores of take step 1 are pending in that machine; 0 where it is out of range.
    pub hidden: u32,
}

impl<M> Done<M> {
    // The machine handed back as it is, with this outcome.
    pub fn refused(machine: M, outcome: Outcome, hidden: u32) -> Done<M>
        ensures { result ≡ handing outcome hidden machine }
    {
        Done {
            machine,
            outcome,
            hidden,
        }
    }
}
