// What the report prints.
use plays::{Event, Opened, Play, Refusal, START};
use reports::{Shown, Stopped, plural};
use repository::ScopeRepository;
use scopes::Scope;
use stacks::Place;
use std::io::Write;

// Where it prints, and room for every name of the script.
#[derive(Drop)]
pub(crate) struct Printer<W: Write> {
    pub out: W,
    pub buffer: Vec<u8>,
}

impl<W: Write> Printer<W> {
    // A scope's name, or quotes where it is empty. No scope here lacks a name, since this repository built them all, but that
    // is not proved.
    fn name(&mut self, repository: &ScopeRepository, scope: Scope) -> Result<(), Stopped> {
        match repository.write(scope, self.buffer.as_mut_slice()) {
            Ok(0) => write!(self.out, "\"\"")?,
            Ok(count) => {
                let name = &self.buffer[0..count];
                // most names can be seen as they are, and go out at once: the formatter takes longer
                if name.iter().all(|byte| byte.is_ascii_graphic()) {
                    self.out.write_all(name)?;
                } else {
                    write!(self.out, "{}", Shown { bytes: name })?;
                }
            }
            Err(fault) => write!(self.out, "(refusal {})", fault.number())?,
        }
        Ok(())
    }

    fn place(&mut self, place: Place) -> Result<(), Stopped> {
        if place == START {
            writeln!(self.out, " start")?;
        } else {
            writeln!(self.out, " {}:{}", place.line, place.position)?;
        }
        Ok(())
    }

    // The scopes on the stack after a line, lowest first, each with the place where it began.
    fn outline(&mut self, play: &Play, line: usize) -> Result<(), Stopped> {
        let beginnings = play.traced.beginnings();
        let height = beginnings.len();
        writeln!(
            self.out,
            "line {line}: {height} {}",
            plural(height, "scope", "scopes")
        )?;
        for (height, beginning) in beginnings.iter().enumerate() {
            write!(self.out, "  {height} ")?;
            self.name(&play.repository, beginning.scope)?;
            self.place(beginning.place)?;
        }
        Ok(())
    }

    fn refusal(
        &mut self,
        line: usize,
        index: Option<usize>,
        refusal: Refusal,
    ) -> Result<(), Stopped> {
        write!(self.out, "{line} refused ")?;
        match index {
            Some(index) => write!(self.out, "{index}")?,
            None => write!(self.out, "-")?,
        }
        writeln!(self.out, " {}: {refusal}", refusal.number())?;
        Ok(())
    }

    // What a directive came to; `before` is the line that was open until then.
    pub(crate) fn event(
        &mut self,
        play: &Play,
        before: Option<Opened>,
        event: Event,
    ) -> Result<(), Stopped> {
        match event {
            Event::Line => self.end(play, before),
            Event::NoLine(refusal) => {
                self.end(play, before)?;
                self.refusal(play.lines(), None, refusal)
            }
            Event::Refused(index, refusal) => self.refusal(play.lines(), Some(index), refusal),
        }
    }

    // The end of a line, if one was open.
    pub(crate) fn end(&mut self, play: &Play, opened: Option<Opened>) -> Result<(), Stopped> {
        match opened {
            Some(opened) => self.outline(play, opened.line),
            None => Ok(()),
        }
    }

    // What was played.
    pub(crate) fn sum_up(&mut self, play: &Play) -> Result<(), Stopped> {
        let lines = play.lines();
        let changes = play.tally.changes;
        let accepted = play.tally.accepted;
        let refused = play.tally.refused;
        let passed = changes.saturating_sub(accepted).saturating_sub(refused);
        let height = play.traced.height();
        let asides = play.traced.set_asides();
        write!(
            self.out,
            "{lines} {}, {changes} {}: {accepted} accepted, {refused} refused, {passed} passed over; ",
            plural(lines, "line", "lines"),
            plural(changes, "change", "changes")
        )?;
        writeln!(
            self.out,
            "at the end {height} {} on the stack, {asides} {}",
            plural(height, "scope", "scopes"),
            plural(asides, "set-aside", "set-asides")
        )?;
        self.out.flush()?;
        Ok(())
    }
}
