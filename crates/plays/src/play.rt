// A script as it is played, directive by directive, without a word of output.
ghost use Rattle.std.specs.Prelude.{◌≡◌, false, [], IfOk, Ok, None, MatchResult};
ghost use Rattle.repository.specs.Builds.{Builds};
ghost use Rattle.repository.specs.Held.{atoms_of};
ghost use Rattle.stacks.specs.Stacks.{started};
ghost use Rattle.plays.specs.Follows.{Follows};
ghost use Rattle.plays.specs.Makes.{Makes};
ghost use Rattle.plays.specs.Plays.{lines_of, Opens, Changes, Asks, Starts, Unplayed, Played, Plays};

use crate::flaws::{Flaw, Wanted};
use crate::refusals::{LONGEST, Refusal, admitted};
use crate::traced::Traced;
use named::scopes_of;
use repository::ScopeRepository;
use scopes::Scope;
use scripts::{Action, Directive, Words, read};
use stacks::{Change, Place, ScopeStackOp};

// How many starting scopes are read: one more than a stack takes, so that it refuses them.
const MOST: usize = 65;

// stays: by rule an outline is shown a line's number and a position, and 0 stands before line 1
// What stands before the first line.
pub const START: Place = Place {
    line: 0,
    position: 0,
};

// The line of text that is open: its number from 1; its length; the last accepted position; how many changes it has
// had; and whether the rest of its changes is passed over.
// stays: a line whose changes have ended still has its number and goes on counting them, so `ended` is no missing value.
#[derive(Clone, Copy)]
pub struct Opened {
    pub line: usize,
    pub length: usize,
    pub last: usize,
    pub index: usize,
    pub ended: bool,
}

// How many changes there were, and what came of them; what is in neither count was passed over.
#[derive(Clone, Copy)]
pub struct Tally {
    pub changes: usize,
    pub accepted: usize,
    pub refused: usize,
}

#[derive(Drop)]
pub struct Play {
    pub repository: ScopeRepository,
    pub traced: Traced,
    // stays: whether a starting stack was taken, beside a stack that is there in either case
    pub started: bool,
    // none before the first line
    pub opened: Option<Opened>,
    pub tally: Tally,
}

// What there is to print of a directive.
#[derive(Clone, Copy)]
pub enum Event {
    // a line begins, so the one before it is whole
    Line,
    // a line begins that is not taken
    NoLine(Refusal),
    // a change is refused; the number counts the line's changes from 0
    Refused(usize, Refusal),
}

// Where a word stands in its line, by its index.
fn place_of(line: &[u8], index: usize) -> usize {
    Words::new(line).nth(index).map_or(line.len(), |(at, _)| at)
}

// The scope that a name has; `at` is where the name stands.
fn scope_of(repository: &mut ScopeRepository, name: &[u8], at: usize) -> Result<Scope, Flaw>
    ensures { IfOk result (λ x. Builds (atoms_of repository.old) name.now (Ok x) (atoms_of repository.new)) }
{
    repository.build(name).map_err(|fault| Flaw {
        at,
        wanted: Wanted::Name(fault),
    })
}

// What a change's words ask of the stack.
fn operation_of(
    repository: &mut ScopeRepository,
    line: &[u8],
    action: Action<'_>,
) -> Result<ScopeStackOp, Flaw>
    ensures { IfOk result (λ op. Asks action.entry (atoms_of repository.old) op (atoms_of repository.new)) }
{
    match action.name() {
        Some(name) => {
            let scope = scope_of(repository, name, place_of(line, 2))?;
            Ok(action.operation(scope))
        }
        None => Ok(action.operation(Scope::empty())),
    }
}

// The starting stack of a line's names, behind its first word.
fn start_of(repository: &mut ScopeRepository, line: &[u8], names: &[u8]) -> Result<Traced, Flaw> {
    let scopes = scopes_of::<MOST>(repository, names).map_err(|refused| Flaw {
        at: line
            .len()
            .saturating_sub(names.len())
            .saturating_add(refused.at),
        wanted: Wanted::Name(refused.fault),
    })?;
    Traced::from_scopes(scopes.as_slice(), START).map_err(|fault| Flaw {
        at: place_of(line, scopes.len()),
        wanted: Wanted::Stack(fault),
    })
}

// A change of the open line, at its place.
fn make(opened: Opened, traced: &mut Traced, change: Change) -> Result<(), Refusal>
    ensures { Makes opened change traced.old result traced.new }
{
    admitted(opened.last, opened.length, change.position)?;
    traced.apply(opened.line, change)?;
    Ok(())
}

impl Play {
    // Nothing played yet.
    pub fn new() -> Play
        ensures atoms { atoms_of result.repository ≡ [] }
        ensures stack { result.traced.stack ≡ started [] }
        ensures outline { result.traced.outline ≡ [] }
        ensures unstarted { result.started ≡ false }
        ensures unopened { result.opened ≡ None }
        ensures tally { result.tally ≡ record { changes = 0; accepted = 0; refused = 0 } }
        ensures follows { Follows result.traced }
    {
        Play {
            repository: ScopeRepository::new(),
            traced: Traced::new(),
            started: false,
            opened: None,
            tally: Tally {
                changes: 0,
                accepted: 0,
                refused: 0,
            },
        }
    }

    // How many lines have begun.
    pub fn lines(&self) -> usize
        ensures { result ≡ lines_of self.now.opened }
    {
        self.opened.map_or(0, |opened| opened.line)
    }

    fn start(&mut self, line: &[u8], names: &[u8]) -> Result<(), Flaw>
        ensures { MatchResult result (λ _. Starts self.old None self.new) (λ _. Unplayed self.old self.new) }
    {
        if self.started || self.opened.is_some() {
            return Err(Flaw {
                at: place_of(line, 0),
                wanted: Wanted::Start,
            });
        }
        self.traced = start_of(&mut self.repository, line, names)?;
        self.started = true;
        Ok(())
    }

    fn open(&mut self, length: usize) -> Event
        ensures { Opens self.old length (Some result) self.new }
    {
        let ended = length > LONGEST;
        self.opened = Some(Opened {
            line: self.lines().saturating_add(1),
            length,
            last: 0,
            index: 0,
            ended,
        });
        if ended {
            Event::NoLine(Refusal::LongLine)
        } else {
            Event::Line
        }
    }

    // A change of the open line, unless the line's changes have ended.
    fn change(&mut self, opened: Opened, change: Change) -> Option<Event>
        ensures changes { Changes opened self.old.traced self.old.tally change result self.new }
        ensures atoms { atoms_of self.new.repository ≡ atoms_of self.old.repository }
    {
        let index = opened.index.saturating_add(1);
        self.tally.changes = self.tally.changes.saturating_add(1);
        if opened.ended {
            self.opened = Some(Opened { index, ..opened });
            return None;
        }
        match make(opened, &mut self.traced, change) {
            Ok(()) => {
                self.opened = Some(Opened {
                    last: change.position,
                    index,
                    ..opened
                });
                self.tally.accepted = self.tally.accepted.saturating_add(1);
                None
            }
            Err(refusal) => {
                self.opened = Some(Opened {
                    index,
                    ended: true,
                    ..opened
                });
                self.tally.refused = self.tally.refused.saturating_add(1);
                Some(Event::Refused(opened.index, refusal))
            }
        }
    }

    // Plays a directive; its line is for messages alone.
    fn play(&mut self, line: &[u8], directive: Directive<'_>) -> Result<Option<Event>, Flaw>
        ensures { MatchResult result (λ e. Played self.old directive.entry e self.new) (λ _. Unplayed self.old self.new) }
    {
        match directive {
            Directive::Nothing | Directive::Theme => Ok(None),
            Directive::Stack(names) => {
                self.start(line, names)?;
                Ok(None)
            }
            Directive::Line(text) => Ok(Some(self.open(text.len()))),
            Directive::Change { position, action } => {
                let Some(opened) = self.opened else {
                    return Err(Flaw {
                        at: place_of(line, 0),
                        wanted: Wanted::Line,
                    });
                };
                let operation = operation_of(&mut self.repository, line, action)?;
                Ok(self.change(
                    opened,
                    Change {
                        position,
                        operation,
                    },
                ))
            }
        }
    }

    // Plays one line of the script; answers what there is to print, if anything.
    pub fn take(&mut self, line: &[u8]) -> Result<Option<Event>, Flaw>
        ensures plays { MatchResult result (λ e. Plays self.old line.now e self.new) (λ _. Unplayed self.old self.new) }
        ensures follows { Follows self.new.traced }
    {
        let directive = read(line)?;
        self.play(line, directive)
    }
}
