ghost use Rattle.std.specs.Prelude.{◌≡◌, Bool};
ghost use Rattle.terms.specs.Lists.{all};

// What a machine may hold only where every index in it is in range.
pub trait InRange: Copy {
    ghost ranged: { Self → Bool };

    fn in_range(self) -> bool
        ensures { result ≡ ranged self };
}

// Whether each of them is in range.
pub fn all_in_range<T: InRange>(each: &[T]) -> bool
    ensures { result ≡ all T.ranged each.now }
{
    let mut ok = true;
    for one in each {
        ok = ok & one.in_range();
    }
    ok
}
