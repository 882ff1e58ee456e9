//! The laws of a commutative field.
ghost use Rattle.std.specs.Prelude.{◌≡◌, ℕ, ◌<◌, ◌≢◌};
ghost use Rattle.draid_gf.specs.Field.{IsField, IsRemainder, PowersDiffer, RemaindersAgree};

/// The laws that hold of all bytes: products and sums are those of a commutative field, a polynomial
/// has one remainder, and powers of 2 with different exponents below 255 differ.
pub fn field_laws()
    ensures field { IsField }
    ensures remainder { RemaindersAgree }
    ensures powers { PowersDiffer }
{}
