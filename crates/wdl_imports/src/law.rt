//! A law of libraries.

ghost use Rattle.wdl_imports.specs.Libraries as spec;

/// A path and the bytes at each path have at most one library.
pub fn one_library()
    ensures { spec.OneLibrary }
{}
