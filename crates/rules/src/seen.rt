// Which fields have been met: for scopes in which no field may stand twice.
ghost use Rattle.std.specs.Prelude.{◌≡◌, ℕ, List, false, not, ◌||◌, ◌==◌};
ghost use Rattle.std.specs.Iterator.{AlwaysYields, IsFinite};
ghost use Rattle.rules.specs.Seen.{was_seen, NotesBytes};

use crate::marks::Seen;

impl Seen {
    // No field yet.
    pub fn none() -> Seen
        ensures { (f : ℕ) → was_seen result f ≡ false }
    {
        Seen {
            marks: [false; 256],
        }
    }

    // Whether a field has been noted.
    pub fn has(&self, f: u8) -> bool
        ensures { result ≡ was_seen self.now f }
    {
        self.marks[f as usize]
    }

    // Notes a field, and says whether it is new.
    pub fn note(&mut self, field: u8) -> bool
        ensures new { result ≡ not (was_seen self.old field) }
        ensures noted { (f : ℕ) → was_seen self.new f ≡ (was_seen self.old f || f == field) }
    {
        let new = !self.marks[field as usize];
        self.marks[field as usize] = true;
        new
    }

    // Notes fields one after another, and says whether they all lie below n and are new. The first
    // that does not ends it.
    pub fn note_all<I: Iterator<Item = u8> + Drop>(&mut self, fields: I, n: usize) -> bool
        requires can { I.can_next fields }
        requires ends { IsFinite (I.remaining fields) }
        ensures { (fs : List ℕ) → AlwaysYields I.next_gives (λ f. f) fields fs → NotesBytes fs n self.old self.new result }
    {
        for field in fields {
            if field as usize >= n || !self.note(field) {
                return false;
            }
        }
        true
    }
}
