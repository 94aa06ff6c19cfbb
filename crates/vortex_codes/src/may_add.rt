//! Whether new keys may be added.

ghost use Rattle.std.specs.Prelude.{◌≡◌, ℕ, Bool, List, Option};
ghost use Rattle.std.specs.Option.{option_map};

/// Tells whether a key that is not there may be added.
pub trait MayAdd {
    /// The answer at each key.
    ghost allows: { Self → Option (List ℕ) → Bool };

    fn may_add(&self, key: Option<&[u8]>) -> bool
        ensures { result ≡ allows self.now (option_map (λ k. k.now) key.entry) };
}

impl MayAdd for bool {
    ghost allows = { λ s key. s };

    fn may_add(&self, _key: Option<&[u8]>) -> bool {
        *self
    }
}
