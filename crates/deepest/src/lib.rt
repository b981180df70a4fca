// The ranking by the deepest scope: of two layings, the one whose deepest scope lies deeper ranks higher; at the same place, the one
// that matches more of it; else the two without that scope, in turn.
#![tactic(auto)]

ghost use Rattle.std.specs.Prelude.{◌≡◌, ℕ, ◌+◌, ◌*◌, ◌^◌, ◌<◌, ◌≤◌, length, take, nat_le};
ghost use Rattle.rankings.specs.Layings.{HighestFit};
ghost use Rattle.rankings.specs.Ranks.{near_atoms, near_position};
ghost use Rattle.deepest.specs.Worths.{value, Words, RoomAt, Room, lone_digits};
ghost use Rattle.deepest.specs.Best.{BestIsHighest, Highest, path_digits};
ghost use Rattle.deepest.specs.Manual.{Manual};
ghost use Rattle.deepest.specs.Tops.{LaidTop};
ghost use Rattle.deepest.specs.BestLaws;

use rankings::{Laid, Places, Ranking, lowest, near_atoms, near_position};
use scopes::Scope;

// How many atoms are laid at each of 64 positions: digits of four bits, that of position 63 first, so that `top` holds the positions
// 63 to 48. Digits compare as one whole number.
#[derive(Clone, Copy, PartialEq, Eq, PartialOrd, Ord, Default)]
pub struct Digits {
    pub top: u64,
    pub upper: u64,
    pub lower: u64,
    pub bottom: u64,
}

// A word with a digit below all that stand in it. Word 0 holds the digits of the positions 0 to 15, word 1 the next ones, and so on.
fn put(word: u64, index: usize, digit: u32, position: usize) -> u64
    requires few { digit ≤ 8 }
    requires from { 16 * index ≤ position }
    requires below { position < 16 * index + 16 }
    requires room { RoomAt index word (position + 1) }
    ensures room { RoomAt index result position }
    ensures value { result * 2 ^ (64 * index) ≡ word * 2 ^ (64 * index) + digit * 2 ^ (4 * position) }
{
    word + ((digit as u64) << (4 * (position - 16 * index)))
}

// A rank with a digit below all that stand in it.
fn with_digit(rank: Digits, digit: u32, position: usize) -> Digits
    requires few { digit ≤ 8 }
    requires low { position < 64 }
    requires room { Room rank (position + 1) }
    ensures room { Room result position }
    ensures value { value result ≡ value rank + digit * 2 ^ (4 * position) }
{
    if position >= 48 {
        Digits {
            top: put(rank.top, 3, digit, position),
            ..rank
        }
    } else if position >= 32 {
        Digits {
            upper: put(rank.upper, 2, digit, position),
            ..rank
        }
    } else if position >= 16 {
        Digits {
            lower: put(rank.lower, 1, digit, position),
            ..rank
        }
    } else {
        Digits {
            bottom: put(rank.bottom, 0, digit, position),
            ..rank
        }
    }
}

// The rank of a scope of so many atoms at a position.
pub fn lone(atoms: u32, position: usize) -> Digits
    ensures value { value result ≡ near_atoms atoms * 2 ^ (4 * near_position position) }
    ensures words { Words result }
    ensures rank { result ≡ lone_digits (near_atoms atoms) (near_position position) }
{
    with_digit(
        Digits::default(),
        near_atoms(atoms),
        near_position(position),
    )
}

// The highest position of a stack that a scope fits.
fn highest_fit(scope: Scope, stack: &[Scope]) -> Option<usize>
    ensures { HighestFit scope stack.now result }
{
    stack.iter().rposition(|other| scope.is_prefix_of(*other))
}

// The digits of the highest laying, from the top of the stack down: each scope, the last one first, takes the first place that it fits.
// stays: a rank is asked far more often than a laying, and places take longer to write out than a short search
fn search_down(path: &[Scope], stack: &[Scope]) -> Option<Digits>
    requires { length stack.now ≤ 64 }
    ensures { Highest path.now stack.now result }
{
    if path.is_empty() {
        return None;
    }
    let mut rank = Digits::default();
    let mut left = path;
    let mut below = stack;
    while let Some((scope, rest)) = left.split_last() {
        let position = highest_fit(*scope, below)?;
        rank = with_digit(rank, scope.len(), position);
        left = rest;
        below = &below[..position];
    }
    Some(rank)
}

// The rank of a path on a stack: the highest of its layings.
#[tactic(auto, using(crate::specs::BestLaws::best_highest, crate::specs::BestLaws::found, crate::proofs::Rules::manual))]
pub fn path(path: &[Scope], stack: &[Scope]) -> Option<Digits>
    ensures rank { result ≡ path_digits path.now (take 64 stack.now) }
    ensures highest { Highest path.now (take 64 stack.now) result }
    ensures best { BestIsHighest }
    ensures manual { Manual }
{
    search_down(path, lowest(stack))
}

// The same search, for the places themselves.
// stays: the entries are written where they are answered, as a row of them would be made, turned round and copied
fn lay_down(path: &[Scope], stack: &[Scope]) -> Option<Places>
    requires { length stack.now ≤ 64 }
    ensures { LaidTop path.now stack.now result }
{
    if path.is_empty() || path.len() > stack.len() {
        return None;
    }
    let mut laid = [Laid::default(); 64];
    let mut left = path;
    let mut below = stack;
    while let Some((scope, rest)) = left.split_last() {
        let position = highest_fit(*scope, below)?;
        laid[rest.len()] = Laid {
            atoms: scope.len(),
            position,
        };
        left = rest;
        below = &below[..position];
    }
    Some(Places {
        laid,
        count: path.len(),
    })
}

// A laying that is worth the most, and none exactly if the path has no rank.
pub fn lay(path: &[Scope], stack: &[Scope]) -> Option<Places>
    ensures { LaidTop path.now (take 64 stack.now) result }
{
    lay_down(path, lowest(stack))
}

// Whether one rank is not above another.
pub fn not_above(a: Digits, b: Digits) -> bool
    ensures { result ≡ nat_le (value a) (value b) }
{
    a <= b
}

pub struct Deepest;

impl Ranking for Deepest {
    type Rank = Digits;

    ghost lone_rank = { lone_digits };

    ghost path_rank = { path_digits };

    ghost not_above = { λ x y. nat_le (value x) (value y) };

    ghost answers = { λ p stack h. BestLaws.answers p stack };

    ghost total = { λ x y a b. BestLaws.total x y };

    ghost transitive = { λ x y z a b d. BestLaws.transitive x y z };

    ghost longer = { λ n m i a b. BestLaws.longer n m i };

    ghost deeper = { BestLaws.deeper };

    ghost single = { λ s stack r h a. BestLaws.single s stack r };

    fn lone(atoms: u32, position: usize) -> Digits {
        crate::lone(atoms, position)
    }

    fn path(path: &[Scope], stack: &[Scope]) -> Option<Digits> {
        crate::path(path, stack)
    }

    fn not_above(a: Digits, b: Digits) -> bool {
        crate::not_above(a, b)
    }
}
