// Imports and exports.
ghost use Rattle.std.specs.Prelude.{◌≡◌};
ghost use Rattle.wcv_core.specs.Kinds.{extern_kind_name};

/// Which of its two lists an entry of a component stands in.
#[derive(Clone, Copy)]
pub enum ExternKind {
    Import,
    Export,
}

impl ExternKind {
    /// The word `import` or `export`.
    pub fn desc(&self) -> &'static str
        ensures { result.now ≡ extern_kind_name self.now }
    {
        match self {
            ExternKind::Import => "import",
            ExternKind::Export => "export",
        }
    }
}
