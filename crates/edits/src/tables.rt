// Tables whose stores are counted: a promise can say which places are written, how often and in what order.
ghost use Rattle.std.specs.Prelude.{◌≡◌, ◌<◌, ◌-◌, ◌++◌, ◌∷◌, [], ℕ, Bool, List, length, refl, slice_set};
ghost use Rattle.std.proofs.Math.ListN.{get_or};
ghost use Rattle.edits.specs.Kept.{Answers, Retained, SameBeside};
ghost use Rattle.loops.specs.InPlace.{front, interval};

// A table of records, read and stored to by place. Who is lent one can write it by `set` alone.
pub trait Table<T> {
    ghost records: { Self → List T };

    // `stores s is t`: stores at these places, in this order, and no other stores made t of s.
    ghost stores: { Self → List ℕ → Self → Type 0 };

    fn len(&self) -> usize
        ensures { result ≡ length (records self.now) };

    fn get(&self, i: usize) -> T
        requires { i < length (records self.now) }
        ensures { result ≡ get_or (records self.now) i result };

    fn set(&mut self, i: usize, x: T)
        requires { i < length (records self.old) }
        ensures after { records self.new ≡ slice_set (records self.old) i x }
        ensures stored { (s : Self) (is : List ℕ) → stores s is self.old → stores s (is ++ i ∷ []) self.new };

    ghost stores_none: { (s : Self) → stores s [] s };
}

// The records of a table that pass a test, moved up within it; freed places are blanked. How many were kept.
// The places from the first dropped record on are written, in order and each once, and no other.
pub fn compact<T: Copy, A: Table<T>, F: Fn(T) -> bool>(table: &mut A, blank: T, keeps: F) -> usize
    requires { F.IsAlwaysCallable keeps }
    ensures kept { (p : T → Bool) → Answers (F.post keeps) p → Retained p blank (A.records table.old) (A.records table.new) result }
    ensures writes { (p : T → Bool) → Answers (F.post keeps) p →
        let xs = A.records table.old in A.stores table.old (interval (front p xs) (length xs - front p xs)) table.new }
{
    let len = table.len();
    let mut n = 0;
    for i in 0..len {
        let x = table.get(i);
        if keeps(x) {
            if n < i {
                table.set(n, x);
            }
            n += 1;
        }
    }
    for j in n..len {
        table.set(j, blank);
    }
    n
}

// A lent slice.
#[derive(Drop)]
pub struct Lent<'a, T> {
    pub records: &'a mut [T],
}

impl<'a, T: Copy> Table<T> for Lent<'a, T> {
    ghost records = { λ s. s.records.now };

    // The same slice, and what stands at other places stays.
    ghost stores = { λ s is t. (t.records.ghost_name ≡ s.records.ghost_name) × SameBeside is s.records.now t.records.now };

    ghost stores_none = { λ s. (refl, λ j d e. refl) };

    fn len(&self) -> usize {
        self.records.len()
    }

    fn get(&self, i: usize) -> T {
        self.records[i]
    }

    fn set(&mut self, i: usize, x: T) {
        self.records[i] = x;
    }
}
