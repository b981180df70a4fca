// `pane names FILE`: builds the scope names of a file, one a line.
ghost use Rattle.std.specs.Prelude.{◌≡◌, ◌≤◌, true, not, length, is_some, IfOk};
ghost use Rattle.scopes.specs.Scopes.{atoms_in};
ghost use Rattle.repository.specs.Held.{atoms_of};
ghost use Rattle.repository.specs.Refusals.{refusal};
ghost use Rattle.repository.specs.Writes.{given, spelling};
ghost use Rattle.pane.specs.Listing.{next, Listing};

use crate::tally::Tally;
use lines::{cut, trimmed};
use reports::{Stopped, plural, read};
use repository::ScopeRepository;
use scopes::Scope;
use std::io::{BufWriter, Write};

// Where names are listed, the repository that builds them, and room for each one as it is written back.
#[derive(Drop)]
struct Lister<W: Write> {
    out: W,
    repository: ScopeRepository,
    buffer: Vec<u8>,
}

impl<W: Write> Lister<W> {
    // Prints a scope that the repository built.
    fn scope(&mut self, scope: Scope) -> Result<(), Stopped>
        requires given { given (atoms_of self.old.repository) (atoms_in scope) ≡ true }
        requires room { length (spelling (atoms_of self.old.repository) scope) ≤ length self.old.buffer.items }
        ensures repository { IfOk result (λ _. self.new.repository ≡ self.old.repository) }
        ensures buffer { IfOk result (λ _. length self.new.buffer.items ≡ length self.old.buffer.items) }
    {
        let count = self
            .repository
            .write(scope, self.buffer.as_mut_slice())
            .unwrap();
        let (a, b) = scope.words();
        write!(self.out, "{} {a:016x} {b:016x} ", scope.len())?;
        self.out.write_all(&self.buffer[0..count])?;
        self.out.write_all(b"\n")?;
        Ok(())
    }

    // Prints what one name came to, and answers whether it is a scope.
    fn name(&mut self, name: &[u8]) -> Result<bool, Stopped>
        requires { length name.now ≤ length self.old.buffer.items }
        ensures told { IfOk result (λ scope. (scope ≡ not (is_some (refusal (atoms_of self.old.repository) name.now))) × (atoms_of self.new.repository ≡ next (atoms_of self.old.repository) name.now)) }
        ensures buffer { IfOk result (λ _. length self.new.buffer.items ≡ length self.old.buffer.items) }
    {
        match self.repository.build(name) {
            Ok(scope) => {
                self.scope(scope)?;
                Ok(true)
            }
            Err(fault) => {
                writeln!(self.out, "refused {}: {fault}", fault.number())?;
                Ok(false)
            }
        }
    }

    // Prints what the name on each line came to, and counts.
    fn list(&mut self, text: &[u8]) -> Result<Tally, Stopped>
        requires { length text.now ≤ length self.old.buffer.items }
        ensures { IfOk result (λ tally. Listing text.now (atoms_of self.old.repository) tally (atoms_of self.new.repository)) }
    {
        let mut tally = Tally::new();
        for line in cut(text, b'\n') {
            let scope = self.name(trimmed(line))?;
            tally = tally.counted(scope);
        }
        Ok(tally)
    }

    fn sum_up(&mut self, tally: Tally) -> Result<(), Stopped> {
        let read = tally.read;
        let made = tally.scopes;
        let refused = read - made;
        let atoms = self.repository.atoms();
        let bytes = self.repository.bytes();
        write!(
            self.out,
            "{read} {} read: {made} {} of ",
            plural(read, "name", "names"),
            plural(made, "scope", "scopes")
        )?;
        writeln!(
            self.out,
            "{atoms} different {} ({bytes} {}), {refused} refused",
            plural(atoms, "atom", "atoms"),
            plural(bytes, "byte", "bytes")
        )?;
        self.out.flush()?;
        Ok(())
    }
}

pub(crate) fn run(rt: &HostRuntime, path: &str) -> Result<(), Stopped> {
    let text = read(rt, path, "scope names are expected, one a line")?;
    let mut lister = Lister {
        out: BufWriter::new(rt.alloc(), rt.stdout())?,
        repository: ScopeRepository::new(),
        buffer: vec![in rt.alloc(); 0u8; text.len()]?,
    };
    let tally = lister.list(text.as_slice())?;
    lister.sum_up(tally)
}
