ghost use Rattle.std.specs.Prelude.{
  ◌≡◌,
  ◌<◌,
  ℕ,
  List,
  IfOk,
  IfSome,
  length,
  option_and_then,
  slice_get,
};
ghost use Rattle.std.specs.BTreeMap.{get_by_text};
ghost use Rattle.std.specs.List.{find};
ghost use Rattle.std.specs.Option.{option_copied};
ghost use Rattle.std.specs.Str.{bytes_eq};
ghost use Rattle.wdl_names.specs.Firsts.{first_place_of};

use crate::name_places::NamePlaces;
use crate::named::Named;
use std::alloc::Global;
use std::marker::Model;
use wdl_value::{Name, NoMemory};

/// A list, whose items are found by their names in logarithmic time. Of two with one name the first
/// counts.
#[derive(Drop)]
pub struct Indexed<'a, T: Named> {
    items: &'a [T],
    places: NamePlaces,
}

impl<'a, T: Named> Model for Indexed<'a, T> {
    ghost use Rattle.std.specs.Prelude.{◌≡◌, ℕ, List};
    ghost use Rattle.std.specs.BTreeMap.{get_by_text};
    ghost use Rattle.std.specs.Coded.{coded_list};
    ghost use Rattle.std.specs.Str.{bytes_eq};
    ghost use Rattle.wdl_names.specs.Firsts.{first_place_of};

    ghost Value = { List T };

    ghost coded = { coded_list T.code };

    ghost view = { λ s. s.items.now };

    ghost invariant = { λ s. (q : List ℕ) → get_by_text s.places.places q ≡ first_place_of (λ (x : T). bytes_eq (T.named x) q) s.items.now };
}

/// Where each name first stands. It goes from the last item to the first, so that an earlier one
/// takes the place of a later one.
fn places_of<T: Named>(alloc: Global, items: &[T]) -> Result<NamePlaces, NoMemory>
    ensures { IfOk result (λ p. (q : List ℕ) → get_by_text p.places q ≡ first_place_of (λ x. bytes_eq (T.named x) q) items.now) }
{
    let mut places = NamePlaces::empty(alloc);
    let mut place = items.len();
    while place > 0 {
        place -= 1;
        places.put(items[place].name(), place)?;
    }
    Ok(places)
}

impl<'a, T: Named> Indexed<'a, T> {
    /// The index of a list, in time linear but for a logarithm.
    pub fn new(alloc: Global, items: &'a [T]) -> Result<Indexed<'a, T>, NoMemory>
        ensures { IfOk result (λ s. s ≡ items.now) }
    {
        let places = places_of(alloc, items)?;
        Ok(Indexed { items, places })
    }

    /// The list.
    pub fn as_slice(&self) -> &'a [T]
        ensures { result.now ≡ self.now }
    {
        self.items
    }

    /// Where the first item of that name stands.
    pub fn place(&self, name: &Name) -> Option<usize>
        ensures found { option_and_then (slice_get self.now) result ≡ find (λ x. bytes_eq (T.named x) name.now) self.now }
        ensures within { IfSome result (λ p. p < length self.now) }
    {
        self.places.get(name)
    }

    /// The first item of that name.
    pub fn find(&self, name: &Name) -> Option<&'a T>
        ensures { option_copied result ≡ find (λ x. bytes_eq (T.named x) name.now) self.now }
    {
        self.items.get(self.place(name)?)
    }
}
