// A line's words, read in turn.
ghost use Rattle.std.specs.Prelude.{◌≡◌, ℕ, List, MatchResult};
ghost use Rattle.scripts.specs.Keywords.{clear_word, pop_word, push_word};
ghost use Rattle.scripts.specs.Numbers.{Number, NoNumber};
ghost use Rattle.scripts.specs.Once.{ReadOnce};
ghost use Rattle.scripts.specs.Words.{Ended, Word};
ghost use Rattle.scripts.specs.Reads.{BehindBlank, Reads, ReadsAction, ReadsPart};

use crate::directives::{Action, Directive, Expected, Fault};
use crate::keywords::{Opening, Operation, opening_of, operation_of};
use crate::numbers::number;
use crate::rest::{Rest, Token};
use stacks::ClearAmount;

// An action, and what stands behind its words.
#[derive(Clone, Copy)]
struct Part<'a> {
    action: Action<'a>,
    rest: Rest<'a>,
}

// The number that a word writes.
fn counted(found: Token<'_>, expected: Expected) -> Result<usize, Fault>
    ensures { MatchResult result (λ n. Number found.entry.word.now n) (λ f. NoNumber found.entry.word.now × (f ≡ record { at = found.entry.at; expected = expected })) }
{
    number(found.word).ok_or(found.lacks(expected))
}

// A `push`, from this word on.
fn push(verb: Token<'_>) -> Result<Part<'_>, Fault>
    ensures { (text : List ℕ) → Word text push_word verb.entry.rest.text.now → ReadsPart verb.entry.rest.size text result }
{
    let name = verb.rest.next();
    if name.word.is_empty() {
        return Err(name.lacks(Expected::Name));
    }
    Ok(Part {
        action: Action::Push(name.word),
        rest: name.rest,
    })
}

// A `pop`.
fn pop(verb: Token<'_>) -> Result<Part<'_>, Fault>
    ensures { (text : List ℕ) → Word text pop_word verb.entry.rest.text.now → ReadsPart verb.entry.rest.size text result }
{
    let count = verb.rest.next();
    let n = counted(count, Expected::Count)?;
    Ok(Part {
        action: Action::Pop(n),
        rest: count.rest,
    })
}

// A `clear`.
fn clear(verb: Token<'_>) -> Result<Part<'_>, Fault>
    ensures { (text : List ℕ) → Word text clear_word verb.entry.rest.text.now → ReadsPart verb.entry.rest.size text result }
{
    let amount = verb.rest.next();
    let clear = match amount.word {
        b"all" => ClearAmount::All,
        _ => ClearAmount::TopN(counted(amount, Expected::Amount)?),
    };
    Ok(Part {
        action: Action::Clear(clear),
        rest: amount.rest,
    })
}

// The action that a text begins with.
fn asked(text: Rest<'_>) -> Result<Part<'_>, Fault>
    ensures { ReadsPart text.entry.size text.entry.text.now result }
{
    let verb = text.next();
    match operation_of(verb.word) {
        Some(Operation::Push) => push(verb),
        Some(Operation::Pop) => pop(verb),
        Some(Operation::Clear) => clear(verb),
        Some(Operation::Restore) => Ok(Part {
            action: Action::Restore,
            rest: verb.rest,
        }),
        Some(Operation::Noop) => Ok(Part {
            action: Action::Noop,
            rest: verb.rest,
        }),
        None => Err(verb.lacks(Expected::Operation)),
    }
}

// The action that a text is, with nothing behind it.
fn action(text: Rest<'_>) -> Result<Action<'_>, Fault>
    ensures { ReadsAction text.entry.size text.entry.text.now result }
{
    let part = asked(text)?;
    let last = part.rest.next();
    if last.word.is_empty() {
        Ok(part.action)
    } else {
        Err(last.lacks(Expected::End))
    }
}

// What stands behind the one blank that a text begins with.
fn behind(text: &[u8]) -> &[u8]
    requires { Ended text.now }
    ensures { BehindBlank text.now result.now }
{
    if text.is_empty() { text } else { &text[1..] }
}

// What a line says, by its first word.
fn said(line: &[u8]) -> Result<Directive<'_>, Fault>
    ensures { Reads line.now result }
{
    let first = Rest::new(line).next();
    match opening_of(first.word) {
        Some(Opening::Nothing) => Ok(Directive::Nothing),
        Some(Opening::Theme) => Ok(Directive::Theme),
        Some(Opening::Stack) => Ok(Directive::Stack(first.rest.text)),
        Some(Opening::Line) => Ok(Directive::Line(behind(first.rest.text))),
        Some(Opening::Change) => {
            let position = counted(first, Expected::Number)?;
            let action = action(first.rest)?;
            Ok(Directive::Change { position, action })
        }
        None => Err(first.lacks(Expected::Directive)),
    }
}

// What a line says, or where it goes wrong.
pub fn read(line: &[u8]) -> Result<Directive<'_>, Fault>
    ensures reads { Reads line.now result }
    ensures once { ReadOnce line.now result }
{
    said(line)
}
