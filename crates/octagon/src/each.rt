// What a closure makes of each of the eight bounds.
ghost use Rattle.octagon.specs.Each.{Each, Each2, Each3};

use crate::Octagon;

impl<T: Copy> Octagon<T> {
    // What f makes of each bound.
    pub fn map<U, F: Fn(T) -> U>(self, f: F) -> Octagon<U>
        requires { Each (F.pre f) self }
        ensures { Each2 (F.post f) self result }
    {
        Octagon {
            c0: f(self.c0),
            c1: f(self.c1),
            c2: f(self.c2),
            c3: f(self.c3),
            c4: f(self.c4),
            c5: f(self.c5),
            c6: f(self.c6),
            c7: f(self.c7),
        }
    }

    // What f makes of each bound and the other octagon's.
    pub fn zip_with<U: Copy, V, F: Fn(T, U) -> V>(self, other: Octagon<U>, f: F) -> Octagon<V>
        requires { Each2 (F.pre f) self other }
        ensures { Each3 (F.post f) self other result }
    {
        Octagon {
            c0: f(self.c0, other.c0),
            c1: f(self.c1, other.c1),
            c2: f(self.c2, other.c2),
            c3: f(self.c3, other.c3),
            c4: f(self.c4, other.c4),
            c5: f(self.c5, other.c5),
            c6: f(self.c6, other.c6),
            c7: f(self.c7, other.c7),
        }
    }
}
