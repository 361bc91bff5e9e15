//! The first input in the text of a document.

ghost use Rattle.std.specs.Prelude.{◌≡◌, Some, None, if◌then◌else◌};
ghost use Rattle.std.specs.Option.{option_copied};
ghost use Rattle.wdl_json.specs.Sooner.{joined};

use wdl_typed::TInput;

/// The input that begins first, of one that was found before and another one that counts where the
/// test holds.
pub fn sooner_if<'a>(found: Option<&'a TInput>, input: &'a TInput, test: bool) -> Option<&'a TInput>
    ensures { option_copied result ≡ joined (option_copied found.entry) (if test then Some input.now else None) }
{
    if !test {
        return found;
    }
    match found {
        Some(first) => if input.span.start < first.span.start {
            Some(input)
        } else {
            Some(first)
        },
        None => Some(input),
    }
}
