ghost use Rattle.std.specs.Prelude.{◌≡◌, false, IfOk};
ghost use Rattle.wdl_base.specs.Plain.{has_nul};
ghost use Rattle.wdl_paths.specs.Resolve as spec;

use crate::fault::ResolveFault;
use crate::segment::{file_name, joined, put, put_folder};
use std::alloc::Global;
use wdl_base::{NoMemory, Text};

/// Whether the bytes begin with `://`.
fn is_scheme_mark(bytes: &[u8]) -> bool
    ensures { result ≡ spec.is_scheme_mark bytes.now }
{
    matches!(bytes, [b':', b'/', b'/', ..])
}

/// Whether the bytes hold `://`.
fn has_scheme(bytes: &[u8]) -> bool
    ensures { result ≡ spec.has_scheme bytes.now }
{
    let mut left = bytes;
    while let [_, rest @ ..] = left {
        if is_scheme_mark(left) {
            return true;
        }
        left = rest;
    }
    false
}

fn is_absolute(uri: &str) -> bool
    ensures { result ≡ spec.is_absolute uri.now }
{
    match uri.as_bytes() {
        [first, ..] => *first == b'/',
        [] => false,
    }
}

/// A path that follows the folder of another.
fn path_from(alloc: Global, base: &str, uri: &str) -> Result<Text, NoMemory>
    requires base { has_nul base.now ≡ false }
    requires uri { has_nul uri.now ≡ false }
    ensures { IfOk result (λ path. path ≡ spec.path_from base.now uri.now) }
{
    let mut kept = Vec::new(alloc);
    put_folder(&mut kept, base)?;
    put_folder(&mut kept, uri)?;
    put(&mut kept, file_name(uri))?;
    joined(alloc, kept.as_slice())
}

/// The path of the document that `uri` names in the document at `base`. A uri that begins with `/`
/// stands as it is. Any other follows `base` up to its last `/`; then the segments `.` go, and, as
/// long as there is one, a segment that is neither empty nor `..` and that `..` follows goes with
/// it. It is `Scheme` exactly where the uri holds `://`.
///
/// The time is linear in the two texts. (OpenWDL 1.1, "Import statements".)
pub fn resolve(alloc: Global, base: &str, uri: &str) -> Result<Text, ResolveFault>
    requires base { has_nul base.now ≡ false }
    requires uri { has_nul uri.now ≡ false }
    ensures resolved { spec.Gives (spec.resolve base.now uri.now) result }
{
    if has_scheme(uri.as_bytes()) {
        return Err(ResolveFault::Scheme);
    }
    if is_absolute(uri) {
        return Ok(Text::from_plain(alloc, uri)?);
    }
    Ok(path_from(alloc, base, uri)?)
}
