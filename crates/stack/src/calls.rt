ghost use Rattle.std.specs.Prelude.{◌≡◌, [], ◌∷◌, length, Some, None, Ok, Err, Decides};
ghost use Rattle.stack.specs.Stacks.{entries, row, Full, Pushed};

use crate::Stack;

impl<'a, T: Copy> Stack<'a, T> {
    // An empty stack over these places.
    pub fn new(places: &'a mut [T]) -> Stack<'a, T>
        ensures items { entries result ≡ [] }
        ensures row { row result ≡ places.old }
        ensures lender { result.places.ghost_name ≡ places.entry.ghost_name }
    {
        Stack { places, len: 0 }
    }

    // Puts an entry on top. Where the places are full the entry is handed back, and nothing changes.
    pub fn push(&mut self, entry: T) -> Result<(), T>
        ensures answer { elim result [ Ok _ ↦ Pushed entry self.old self.new | Err back ↦ (back ≡ entry) × Full self.old × (self.new ≡ self.old) ] }
        ensures len { length (row self.new) ≡ length (row self.old) }
        ensures lender { self.new.places.ghost_name ≡ self.old.places.ghost_name }
    {
        if self.len >= self.places.len() {
            return Err(entry);
        }
        self.places[self.len] = entry;
        self.len += 1;
        Ok(())
    }

    // Takes the top entry off; none where the stack is empty.
    pub fn pop(&mut self) -> Option<T>
        ensures answer { elim result [ Some entry ↦ entries self.old ≡ entry ∷ entries self.new | None ↦ (entries self.old ≡ []) × (self.new ≡ self.old) ] }
        ensures row { row self.new ≡ row self.old }
        ensures lender { self.new.places.ghost_name ≡ self.old.places.ghost_name }
    {
        if self.len == 0 {
            return None;
        }
        self.len -= 1;
        Some(self.places[self.len])
    }

    // How many entries there are.
    pub fn len(&self) -> usize
        ensures { result ≡ length (entries self.now) }
    {
        self.len // the places from here on hold no entry
    }

    // Whether there is none.
    pub fn is_empty(&self) -> bool
        ensures { Decides result (entries self.now ≡ []) }
    {
        self.len == 0
    }
}
