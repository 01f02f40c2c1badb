ghost use Rattle.std.specs.Prelude.{◌≡◌};
ghost use Rattle.terms.specs.Outcome.{is_answer_number, is_refusal, number_of, value_of};

// The outcome of an entry.
#[derive(Clone, Copy, Debug, PartialEq, Eq)]
pub enum Outcome {
    // A step was made, and the call goes on; or a drain, a client store or a beginning.
    Moved,
    // The entry's party has a call running where it must have none, or none where it must have one.
    Place,
    // A take was begun against the spacing rule.
    Early,
    // What the step needs is not there yet; or the machine is out of range, or the thief is not there.
    Wait,
    // A put ends: its task is in the queue.
    Stored,
    // A take or a steal ends with the task of this number.
    Task(u32),
    // A take ends: there was no task.
    Empty,
    // A steal ends: the margin does not let it be sure of a task.
    Abort,
    // A put ends: as far as the worker can tell, at most one slot is free, and that one stays so.
    Full,
    // A put ends: the tail has its greatest value.
    End,
}

impl Outcome {
    // Its number in a trace.
    pub fn number(self) -> u8
        ensures { result ≡ number_of self }
    {
        match self {
            Outcome::Moved => 0,
            Outcome::Place => 5,
            Outcome::Early => 6,
            Outcome::Wait => 7,
            Outcome::Stored => 16,
            Outcome::Task(_) => 17,
            Outcome::Empty => 18,
            Outcome::Abort => 19,
            Outcome::Full => 20,
            Outcome::End => 21,
        }
    }

    // Its value in a trace: the task's number, or 0.
    pub fn value(self) -> u32
        ensures { result ≡ value_of self }
    {
        match self {
            Outcome::Task(task) => task,
            _ => 0,
        }
    }

    // Whether it is 5, 6 or 7: a refusal, which leaves the machine as it is.
    pub fn is_refusal(self) -> bool
        ensures { result ≡ is_refusal self }
    {
        (5..=7).contains(&self.number())
    }
}

// Whether the number of an outcome, as a trace has it, is that of an answer.
pub fn is_answer(number: u8) -> bool
    ensures { result ≡ is_answer_number number }
{
    (16..=21).contains(&number)
}
