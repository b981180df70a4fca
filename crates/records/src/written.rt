// Names written back.
ghost use Rattle.std.specs.Prelude.{◌↔◌, IsTrue};
ghost use Rattle.repository.specs.Held.{atoms_of};
ghost use Rattle.records.specs.WrittenBack.{IsNameOf};

use repository::ScopeRepository;
use scopes::Scope;

// Whether this is the name of a scope, of 1,024 bytes at most.
pub fn is_written(repository: &ScopeRepository, scope: Scope, name: &[u8]) -> bool
    ensures { IsTrue result ↔ IsNameOf (atoms_of repository.now) scope name.now }
{
    let mut buffer = [0u8; 1024];
    match repository.write(scope, &mut buffer) {
        Ok(count) => &buffer[0..count] == name,
        Err(_) => false,
    }
}
