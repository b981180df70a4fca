// The ranking by the earliest laying: each of a path's scopes in turn takes the lowest position that it can. A rank is the
// bits of a double: the sum, lowest position first, of atoms * 2 ^ (3 * position), each addition rounded to nearest, ties to
// even.
#![tactic(auto)]

ghost use Rattle.std.specs.Prelude.{◌≡◌, ◌+◌, ◌*◌, ◌^◌, ◌<◌, ◌≤◌, false, leb, length, take, pos, nat_le};
ghost use Rattle.std.specs.Float.{fin, binary64};
ghost use Rattle.std.specs.Float.Ieee.{add};
ghost use Rattle.std.specs.Float.Ieee.Exact.{HasValue};
ghost use Rattle.rankings.specs.Ranks.{near_atoms, near_position, Lone};
ghost use Rattle.earliest.specs.Scores.{term, plus, lone_rank, BitsOrder};
ghost use Rattle.earliest.specs.Lowest.{PlacesLaw};
ghost use Rattle.earliest.specs.Ranks.{path_rank, ByLowest, Finite, Whole, ScoresOrder};
ghost use Rattle.earliest.specs.PathLaws;
ghost use Rattle.earliest.specs.RankingLaws;

pub mod places;

pub use places::lay;
use places::lowest_fit;
use rankings::{Laid, Ranking, lowest, near_atoms, near_position};
use scopes::Scope;

// Some atoms at a position, as a term of a sum.
#[derive(Clone, Copy)]
struct LaidTerm {
    atoms: u32,
    position: usize,
    ghost lone: { Lone atoms position },
}

impl LaidTerm {
    // The bits of 8 to the power of its position: above 52 bits of fraction, the exponent plus 1023.
    fn power_bits(self) -> u64
        ensures { result ≡ (1023 + 3 * self.position) * 2 ^ 52 }
    {
        (1023 + 3 * self.position as u64) * 0x10_0000_0000_0000
    }

    // 8 to the power of its position.
    fn power(self) -> f64
        ensures { result ≡ fin false 1 (pos (3 * self.position)) }
    {
        f64::from_bits(self.power_bits())
    }

    // Its double, which is exact.
    fn value(self) -> f64
        ensures { result ≡ term self.atoms self.position }
    {
        self.atoms as f64 * self.power()
    }

    // The bits of that double.
    fn bits(self) -> u64
        ensures rank { result ≡ lone_rank self.atoms self.position }
        ensures exact { HasValue (term self.atoms self.position) false (self.atoms * 2 ^ (3 * self.position)) 1 }
    {
        self.value().to_bits()
    }

    // A sum with this term more, rounded once.
    fn added_to(self, sum: f64) -> f64
        ensures { result ≡ add binary64 sum (term self.atoms self.position) }
    {
        sum + self.value()
    }
}

// A sum with a laid scope more; one of no atoms adds nothing.
fn add_laid(sum: f64, laid: Laid) -> f64
    requires few { laid.atoms ≤ 8 }
    requires low { laid.position < 64 }
    ensures { result ≡ plus sum laid.atoms laid.position }
{
    if laid.atoms == 0 {
        return sum;
    }
    let term = LaidTerm {
        atoms: laid.atoms,
        position: laid.position,
    };
    term.added_to(sum)
}

// The rank of a path on a stack of at most 64 scopes: each of its scopes in turn is laid, and its term added.
// stays: a rank is asked far more often than a laying, and places take longer to write out than a short search
fn path_rank(path: &[Scope], stack: &[Scope]) -> Option<u64>
    requires { length stack.now ≤ 64 }
    ensures { result ≡ path_rank path.now stack.now }
{
    if path.is_empty() {
        return None;
    }
    let mut sum = 0.0;
    let mut from = 0;
    for scope in path {
        let position = from + lowest_fit(*scope, &stack[from..])?;
        sum = add_laid(
            sum,
            Laid {
                atoms: scope.len(),
                position,
            },
        );
        from = position + 1;
    }
    Some(sum.to_bits())
}

// The rank of a scope of so many atoms at a position, both taken as the nearest that can be.
pub fn lone(atoms: u32, position: usize) -> u64
    ensures rank { result ≡ lone_rank (near_atoms atoms) (near_position position) }
    ensures exact { HasValue (term (near_atoms atoms) (near_position position)) false (near_atoms atoms * 2 ^ (3 * near_position position)) 1 }
{
    let term = LaidTerm {
        atoms: near_atoms(atoms),
        position: near_position(position),
    };
    term.bits()
}

// Whether one rank is not above another: the bits of doubles, none of them negative, stand in the doubles' order.
#[tactic(auto, using(crate::specs::BitOrder::bits_order, crate::specs::PathLaws::scores_order))]
pub fn not_above(a: u64, b: u64) -> bool
    ensures test { result ≡ nat_le a b }
    ensures floats { BitsOrder }
    ensures scores { ScoresOrder }
{
    a <= b
}

// The rank of a path on the lowest 64 scopes of a stack.
#[tactic(auto, using(crate::specs::Placement::places_law, crate::specs::PathLaws::by_lowest, crate::specs::PathLaws::finite_all, crate::specs::PathLaws::whole_all))]
pub fn path(path: &[Scope], stack: &[Scope]) -> Option<u64>
    ensures rank { result ≡ path_rank path.now (take 64 stack.now) }
    ensures earliest { ByLowest path.now (take 64 stack.now) result }
    ensures finite { Finite path.now (take 64 stack.now) }
    ensures whole { Whole path.now (take 64 stack.now) result }
    ensures law { PlacesLaw }
{
    path_rank(path, lowest(stack))
}

// Named where a ranking is chosen; it holds nothing.
pub struct Earliest;

impl Ranking for Earliest {
    type Rank = u64;

    ghost lone_rank = { lone_rank };

    ghost path_rank = { path_rank };

    ghost not_above = { leb };

    ghost answers = { RankingLaws.answers };

    ghost total = { RankingLaws.total };

    ghost transitive = { RankingLaws.transitive };

    ghost longer = { RankingLaws.longer };

    ghost deeper = { RankingLaws.deeper };

    ghost single = { PathLaws.single };

    fn lone(atoms: u32, position: usize) -> u64 {
        crate::lone(atoms, position)
    }

    fn path(path: &[Scope], stack: &[Scope]) -> Option<u64> {
        crate::path(path, stack)
    }

    fn not_above(a: u64, b: u64) -> bool {
        crate::not_above(a, b)
    }
}
