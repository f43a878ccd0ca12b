// Laws of names.
ghost use Rattle.std.specs.Prelude.{◌≡◌, true, Some};
ghost use Rattle.wcv_syntax.specs.ExternName.{Text, Form, Names, is_formed};
ghost use Rattle.wcv_syntax.specs.FormOf.{form_of};
ghost use Rattle.wcv_syntax.specs.Keys.{key_of, key_text};

/// The form of a text is found exactly where the text is how that form is written, and the parts of the
/// form are labels. So no text has two forms.
pub fn a_name_is_how_its_form_is_written()
    ensures read { (t : Text) (f : Form) → form_of t ≡ Some f → Names t f }
    ensures found { (t : Text) (f : Form) → Names t f → form_of t ≡ Some f }
{}

/// Names whose keys are one text have one key.
pub fn keys_differ_as_texts()
    ensures { (f g : Form) → is_formed f ≡ true → is_formed g ≡ true → key_text (key_of f) ≡ key_text (key_of g) → key_of f ≡ key_of g }
{}
