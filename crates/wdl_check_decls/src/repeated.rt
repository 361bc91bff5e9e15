ghost use Rattle.std.specs.Prelude.{◌≡◌, [], map, IfOk};
ghost use Rattle.wdl_check_decls.specs.Names as spec;

use std::alloc::Global;
use wdl_ast::Ident;
use wdl_names::{NameStack, add};
use wdl_value::{NoMemory, Span};

/// Where the first name stands that stands before in the list.
pub fn first_repeated(alloc: Global, idents: &[&Ident]) -> Result<Option<Span>, NoMemory>
    ensures { IfOk result (λ s. s ≡ spec.first_repeated [] (map (λ n. n.now) idents.now)) }
{
    let mut words = NameStack::empty(alloc);
    for ident in idents {
        if !add(alloc, &mut words, &ident.name)? {
            return Ok(Some(ident.span));
        }
    }
    Ok(None)
}
