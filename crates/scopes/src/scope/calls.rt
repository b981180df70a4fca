// What can be asked of a scope. Lengths and prefixes go by whole words, with no loop over fields.
ghost use Rattle.std.specs.Prelude.{◌≡◌, ◌+◌, ◌-◌, ◌*◌, ◌/◌, ◌^◌, ◌<◌, ◌≤◌, true, [], ◌∷◌, ◌++◌, length, is_some, IfSome, Decides, MatchOption, ◌==◌, nat_eq, slice_index};
ghost use Rattle.std.specs.Int.Count.{count_trailing_zeros};
ghost use Rattle.std.specs.Ordering.{on};
ghost use Rattle.scopes.specs.Fields.{word_fields, fields, packed, Gapless};
ghost use Rattle.scopes.specs.Scopes.{fields_in, atoms_in, PrefixOf, begins};
ghost use Rattle.std.specs.Cmp.{partial_equiv_from_equiv, on_equiv, nat_eq_equiv};
ghost use Rattle.std.specs.Cmp.Lexicographic.{pointwise, lists_equiv};

use crate::scope::Scope;

// Whether no used field of a word stands behind an unused one.
fn is_packed(w: u64) -> bool
    ensures { result ≡ packed (word_fields w) }
{
    if w >> 48 == 0 {
        return w == 0;
    }
    if (w >> 32) % 0x1_0000 == 0 {
        return w % 0x1_0000_0000 == 0;
    }
    if (w >> 16) % 0x1_0000 == 0 {
        return w % 0x1_0000 == 0;
    }
    true
}

fn are_packed(a: u64, b: u64) -> bool
    ensures { result ≡ packed (fields a b) }
{
    is_packed(a) && is_packed(b) && (b == 0 || a % 65536 != 0)
}

// How many bits of a word lie in the unused fields at its end.
fn unused_bits(w: u64) -> u32
    ensures { result ≡ count_trailing_zeros 64 w / 16 * 16 }
{
    w.trailing_zeros() / 16 * 16
}

// Whether two words are the same but for some bits at their end.
fn same_above(x: u64, y: u64, low: u32) -> bool
    requires { low < 64 }
    ensures { result ≡ (x / 2 ^ low == y / 2 ^ low) }
{
    x >> low == y >> low
}

impl Scope {
    // The scope of no atoms.
    pub fn empty() -> Scope
        ensures { atoms_in result ≡ [] }
    {
        Scope { a: 0, b: 0 }
    }

    // The scope of two words, unless a used field stands behind an unused one.
    pub fn from_words(a: u64, b: u64) -> Option<Scope>
        ensures gapless { Decides (is_some result) (Gapless (fields a b)) }
        ensures words { IfSome result (λ s. (s.a ≡ a) × (s.b ≡ b)) }
    {
        if are_packed(a, b) {
            Some(Scope { a, b })
        } else {
            None
        }
    }

    // The two words, first and second.
    pub fn words(self) -> (u64, u64)
        ensures { result ≡ (self.a, self.b) }
    {
        (self.a, self.b)
    }

    // Whether there are no atoms.
    pub fn is_empty(self) -> bool
        ensures { result ≡ (length (atoms_in self) == 0) }
    {
        self.a == 0
    }

    // How many atoms there are.
    pub fn len(self) -> u32
        ensures count { result ≡ length (atoms_in self) }
        ensures eight { result ≤ 8 }
    {
        let zeros = if self.b == 0 {
            self.a.trailing_zeros() + 64
        } else {
            self.b.trailing_zeros()
        };
        8 - zeros / 16
    }

    // The field at an index: an atom's number plus one, or 0 where it is unused or there is none.
    pub fn atom_at(self, index: usize) -> u16
        ensures { result ≡ slice_index (fields_in self) index }
    {
        if index < 4 {
            ((self.a >> (48 - 16 * index)) % 65536) as u16
        } else if index < 8 {
            ((self.b >> (112 - 16 * index)) % 65536) as u16
        } else {
            0
        }
    }

    // Whether the atoms are the other's first ones.
    pub fn is_prefix_of(self, other: Scope) -> bool
        ensures decides { Decides result (PrefixOf self other) }
        ensures test { result ≡ begins self other }
    {
        if self.b != 0 {
            self.a == other.a && same_above(self.b, other.b, unused_bits(self.b))
        } else if self.a != 0 {
            same_above(self.a, other.a, unused_bits(self.a))
        } else {
            true
        }
    }

    // One more atom, unless there are eight or a field cannot hold its number plus one.
    pub fn with_atom(self, number: u16) -> Option<Scope>
        ensures { MatchOption result ((length (atoms_in self) < 8 → number < 65535 → ⊥)) (λ s. atoms_in s ≡ atoms_in self ++ (number + 1) ∷ []) }
    {
        if number == 65535 {
            return None;
        }
        let field = number as u64 + 1;
        let n = self.len();
        if n < 4 {
            Some(Scope {
                a: self.a + (field << (48 - 16 * n)),
                b: self.b,
            })
        } else if n < 8 {
            Some(Scope {
                a: self.a,
                b: self.b + (field << (112 - 16 * n)),
            })
        } else {
            None
        }
    }
}

// Blank places of rows hold the scope of no atoms.
impl Default for Scope {
    ghost is_default = { λ s. atoms_in s ≡ [] };

    fn default() -> Scope {
        Scope::empty()
    }
}

// Two scopes are equal exactly if they have the same atoms in the same order.
// stays: a derive would promise that the words are equal, and no layer above this crate knows the words
impl PartialEq for Scope {
    ghost eq = { on atoms_in (pointwise nat_eq) };

    ghost laws = { partial_equiv_from_equiv (on_equiv atoms_in (lists_equiv nat_eq_equiv)) };

    fn eq(&self, other: &Scope) -> bool
        ensures value { result ≡ on atoms_in (pointwise nat_eq) self.now other.now }
        ensures equals { Decides result (atoms_in self.now ≡ atoms_in other.now) }
    {
        self.a == other.a && self.b == other.b
    }
}

impl Eq for Scope {
    ghost laws = { on_equiv atoms_in (lists_equiv nat_eq_equiv) };
}
