// What the names of one list differ in.
use wcv_core::Text;

/// The key of a name, with all labels in lower case: the names of one list differ in their keys.
#[derive(Drop)]
pub enum NameKey {
    /// An item, also by its getter.
    Item(Text),
    Constructor(Text),
    /// A resource and its function, also by its getter.
    Member(Text, Text),
    /// A setter, maybe of a resource.
    Setter(Option<Text>, Text),
    /// The exact text.
    Interface(Text),
}
