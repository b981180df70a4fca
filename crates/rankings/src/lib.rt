// Rankings: which laying of a path on a stack ranks above which.
#![tactic(auto)]

ghost use Rattle.std.specs.Prelude.{◌≡◌, ℕ, ◌<◌, ◌≤◌, Bool, true, false, List, [], ◌∷◌, length, take, Some, Option};
ghost use Rattle.scopes.specs.declared.scope.Scope.{Scope};
ghost use Rattle.rankings.specs.Layings.{atoms, FitsAt};
ghost use Rattle.rankings.specs.Ranks.{near_atoms, near_position, Lone, Answered, Answers};

use scopes::Scope;

// A ranking: functions that stand alone. Nothing is refused, and nothing is asked of a caller.
// stays: a path and a stack are what each ranking is asked of, and no fact ties the two
pub trait Ranking {
    type Rank: Copy;

    // The rank of a scope of so many atoms that fits at a position, for 1 to 8 atoms and the positions 0 to 63.
    ghost lone_rank: { ℕ → ℕ → Self.Rank };

    // The rank of a path on a stack, if it can be laid.
    ghost path_rank: { List Scope → List Scope → Option Self.Rank };

    // Whether one rank is not above another.
    ghost not_above: { Self.Rank → Self.Rank → Bool };

    // Values outside 1 to 8 atoms and the positions 0 to 63 are taken as the nearest inside.
    fn lone(atoms: u32, position: usize) -> Self::Rank
        ensures { result ≡ lone_rank (near_atoms atoms) (near_position position) };

    // Only the lowest 64 scopes of the stack count.
    fn path(path: &[Scope], stack: &[Scope]) -> Option<Self::Rank>
        ensures { result ≡ path_rank path.now (take 64 stack.now) };

    fn not_above(a: Self::Rank, b: Self::Rank) -> bool
        ensures { result ≡ not_above a b };

    ghost answers: { (p stack : List Scope) → length stack ≤ 64 → Answers p stack (path_rank p stack) };

    ghost total: { (x y : Self.Rank) → Answered lone_rank path_rank x → Answered lone_rank path_rank y → not_above x y ≡ false → not_above y x ≡ true };

    ghost transitive: { (x y z : Self.Rank) → Answered lone_rank path_rank x → Answered lone_rank path_rank y → Answered lone_rank path_rank z → not_above x y ≡ true → not_above y z ≡ true → not_above x z ≡ true };

    ghost longer: { (n m i : ℕ) → Lone n i → Lone m i → n < m → not_above (lone_rank m i) (lone_rank n i) ≡ false };

    ghost deeper: { (n m i j : ℕ) → Lone n i → Lone m j → i < j → not_above (lone_rank n i) (lone_rank m j) ≡ true };

    ghost single: { (s : Scope) (stack : List Scope) (r : Self.Rank) → length stack ≤ 64 → 1 ≤ atoms s → path_rank (s ∷ []) stack ≡ Some r → ((i : ℕ) × FitsAt s stack i × (r ≡ lone_rank (atoms s) i)) };
}

// One of a path's scopes as it is laid: its atoms, and its position on the stack.
#[derive(Clone, Copy, Default)]
pub struct Laid {
    pub atoms: u32,
    pub position: usize,
}

// A path as it is laid: its first `count` entries are the path's scopes, in their order; the others say nothing.
// stays: an array and a count, as no row of fixed capacity is `Copy`
#[derive(Clone, Copy)]
pub struct Places {
    pub laid: [Laid; 64],
    pub count: usize,
}

// The nearest of 1 to 8 atoms.
pub fn near_atoms(atoms: u32) -> u32
    ensures { result ≡ near_atoms atoms }
{
    atoms.max(1).min(8)
}

// The nearest of the positions 0 to 63.
pub fn near_position(position: usize) -> usize
    ensures { result ≡ near_position position }
{
    position.min(63)
}

// The lowest 64 scopes of a stack, or all where there are fewer.
pub fn lowest(stack: &[Scope]) -> &[Scope]
    ensures scopes { result.now ≡ take 64 stack.now }
    ensures few { length result.now ≤ 64 }
{
    if stack.len() > 64 {
        &stack[0..64]
    } else {
        stack
    }
}
