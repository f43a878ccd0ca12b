// How many items of each sort there are.
ghost use Rattle.std.specs.Prelude.{◌≡◌, ◌<◌, ◌-◌, ◌^◌};
ghost use Rattle.wcv_syntax.specs.View.{code_decl_view};
ghost use Rattle.wcv_syntax.specs.declared.core_section.ExternalKind.{ExternalKind};
ghost use Rattle.wcv_encode.specs.Modules.{kind_of, count_of, one_more, no_items, next};

use wcv_syntax::{ExternalKind, ModuleDecl, TypeRef};

/// The length of each index space of core items.
#[derive(Clone, Copy)]
pub(crate) struct Counts {
    pub(crate) funcs: usize,
    pub(crate) tables: usize,
    pub(crate) memories: usize,
    pub(crate) globals: usize,
    pub(crate) tags: usize,
}

/// The sort of an item of a type.
pub(crate) fn kind(ty: TypeRef) -> ExternalKind
    ensures { result ≡ kind_of ty }
{
    match ty {
        TypeRef::Func(_) => ExternalKind::Func,
        TypeRef::Table(_) => ExternalKind::Table,
        TypeRef::Memory(_) => ExternalKind::Memory,
        TypeRef::Global(_) => ExternalKind::Global,
        TypeRef::Tag(_) => ExternalKind::Tag,
    }
}

impl Counts {
    /// No items.
    pub(crate) fn none() -> Counts
        ensures { result ≡ no_items }
    {
        Counts {
            funcs: 0,
            tables: 0,
            memories: 0,
            globals: 0,
            tags: 0,
        }
    }

    /// How many there are of a sort.
    #[tactic(auto, unfolding(crate::specs::Modules::count_of))]
    pub(crate) fn of(self, kind: ExternalKind) -> usize
        ensures { result ≡ count_of self kind }
    {
        match kind {
            ExternalKind::Func => self.funcs,
            ExternalKind::Table => self.tables,
            ExternalKind::Memory => self.memories,
            ExternalKind::Global => self.globals,
            ExternalKind::Tag => self.tags,
        }
    }

    /// One more of a sort.
    #[tactic(auto, unfolding(crate::specs::Modules::count_of, crate::specs::Modules::one_more))]
    fn with(mut self, kind: ExternalKind) -> Counts
        requires { count_of self kind < 2 ^ 64 - 1 }
        ensures { result ≡ one_more kind self }
    {
        match kind {
            ExternalKind::Func => self.funcs += 1,
            ExternalKind::Table => self.tables += 1,
            ExternalKind::Memory => self.memories += 1,
            ExternalKind::Global => self.globals += 1,
            ExternalKind::Tag => self.tags += 1,
        }
        self
    }

    /// Behind a declaration.
    #[tactic(auto, unfolding(crate::specs::Modules::next))]
    pub(crate) fn behind(self, decl: &ModuleDecl) -> Counts
        requires { (k : ExternalKind) → count_of self k < 2 ^ 64 - 1 }
        ensures { result ≡ next self (code_decl_view decl.now) }
    {
        match decl {
            ModuleDecl::Ty(_) => self,
            ModuleDecl::Import(import) => self.with(kind(import.ty)),
            ModuleDecl::Export { ty, .. } => self.with(kind(*ty)),
        }
    }
}
