ghost use Rattle.std.specs.Prelude.{◌≡◌, ℕ, List, Ok, Err};
ghost use Rattle.draid_spec.specs.declared.layout.Geometry.{Geometry};
ghost use Rattle.draid_spec.specs.declared.spec.SpecFault.TheVariants.{Number, Repeated};
ghost use Rattle.draid_spec.specs.declared.text.Said.{Said};
ghost use Rattle.draid_spec.specs.Geometry.{IsGeometry, geometry_of};
ghost use Rattle.draid_spec.specs.Grammar.{Accepts, IsParts, Leaves, Parts, Repeats, said_of, text_of};
ghost use Rattle.draid_spec.specs.Text.{said_by};

/// Law: what is read of a text is what its parts say, and a refusal stands where the text leaves the
/// grammar or says a letter again.
#[tactic(auto, using(crate::proofs::TextRead::text_read, crate::proofs::TextLaws::text_accepted, crate::proofs::TextLaws::letter_repeated, crate::proofs::TextLaws::text_left))]
pub fn text_is_read()
    ensures parts { (parts : Parts) → IsParts parts → said_by (text_of parts) ≡ said_of parts }
    ensures accepted { (text : List ℕ) (said : Said) → said_by text ≡ Ok said → Accepts text said }
    ensures repeated { (text : List ℕ) (letter : ℕ) → said_by text ≡ Err (Repeated letter) → Repeats text letter }
    ensures left { (text : List ℕ) (at : ℕ) → said_by text ≡ Err (Number at) → Leaves text at }
{}

/// Law: each layout whose numbers fit together is the one that `geometry` gives for its spec and
/// properties.
#[tactic(auto, using(crate::proofs::Layouts::given_layout))]
pub fn layout_is_given()
    ensures { (layout : Geometry) → IsGeometry layout → geometry_of layout.spec layout.props ≡ Ok layout }
{}
