ghost use Rattle.std.specs.Prelude.{◌≡◌};
ghost use Rattle.terms.specs.Refusal.{number_of, place_of};

// Why a file is not read, or not written, or no sheet made of it: it breaks a rule, or the memory that was lent is too small.
#[derive(Clone, Copy, Debug, PartialEq, Eq)]
pub enum Refusal {
    // SIZE: the size at this place, counted from 0, is out of its range; 7 is a share sheet's count.
    Size(usize),
    // SHORT: the file, or one of two parallel arrays, has another length than it should have.
    Short,
    // KIND: the kind byte of this entry, counted from 0, is none of the seven.
    Kind(usize),
    // WHO: the operand of this entry is not allowed for its kind.
    Who(usize),
    // ROOM: the lent buffer has too few bytes.
    Room,
    // MARGIN: the margin in use is under the needed one.
    Margin,
    // BLOCK: this entry begins a put whose task is no block of the design, or one that an earlier entry begins to put.
    Block(usize),
}

impl Refusal {
    // Its number.
    pub fn number(self) -> u8
        ensures { result ≡ number_of self }
    {
        match self {
            Refusal::Size(_) => 1,
            Refusal::Short => 2,
            Refusal::Kind(_) => 3,
            Refusal::Who(_) => 4,
            Refusal::Room => 8,
            Refusal::Margin => 9,
            Refusal::Block(_) => 10,
        }
    }

    // The place of its size or its entry, or 0.
    pub fn place(self) -> usize
        ensures { result ≡ place_of self }
    {
        match self {
            Refusal::Size(place) => place,
            Refusal::Kind(entry) => entry,
            Refusal::Who(entry) | Refusal::Block(entry) => entry,
            Refusal::Margin => 3,
            Refusal::Short | Refusal::Room => 0,
        }
    }
}
