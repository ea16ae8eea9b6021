ghost use Rattle.std.specs.Prelude.{◌≡◌, ℕ, List};
ghost use Rattle.sig_json.specs.Listed.{listed};

/// A value that one text of a closed list stands for.
pub trait Listed: Copy + 'static {
    ghost values: { List Self };

    ghost text_of: { Self → List ℕ };

    ghost otherwise: { Self };

    /// Every value, in the order of the list.
    fn values() -> &'static [Self]
        ensures { result.now ≡ values };

    /// Its text.
    fn as_str(&self) -> &'static str
        ensures { result.now ≡ text_of self.now };
}

/// The value with this text. None exactly where the list has no such text.
#[tactic(auto, unfolding(crate::specs::Listed::listed))]
pub fn value_named<T: Listed>(text: &str) -> Option<T>
    ensures { result ≡ listed T.text_of T.values text.now }
{
    T::values()
        .iter()
        .copied()
        .find(|value| value.as_str() == text)
}
