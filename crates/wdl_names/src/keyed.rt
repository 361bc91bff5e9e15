use wdl_value::Key;

/// What is found under a key.
pub trait Keyed {
    ghost use Rattle.std.specs.Prelude.{◌≡◌};
    ghost use Rattle.wdl_base.specs.declared.name.Key.{Key};

    ghost keyed: { Self → Key };

    /// The key.
    fn key(&self) -> &Key
        ensures { result.now ≡ keyed self.now };
}

impl Keyed for Key {
    ghost keyed = { λ k. k };

    fn key(&self) -> &Key {
        self
    }
}
