// Names of interfaces.
ghost use Rattle.std.specs.Prelude.{◌≡◌};
ghost use Rattle.std.specs.Option.{option_copied};
ghost use Rattle.wcv_syntax.specs.ExternName.{spelled, interface as interface_form};

/// The parts of the name of an interface, which make up the text.
#[derive(Clone, Copy)]
pub struct InterfaceName<'a> {
    pub text: &'a str,
    pub namespace: &'a str,
    pub package: &'a str,
    pub interface: &'a str,
    pub version: Option<&'a str>,
    pub ghost whole: { spelled (interface_form namespace.now «package».now interface.now (option_copied version)) ≡ text.now },
}
