//! Lists of names.

ghost use Rattle.std.specs.Prelude.{◌≡◌, ◌≢◌, ◌++◌, ◌∷◌, List, ℕ, [], IsTrue, IfOk, OnOk, OnErr};
ghost use Rattle.sg_names.specs.Names.{names_text, is_names};

use crate::fault::TextFault;
use crate::item_list;
use crate::list::List;
use crate::named_texts::Name;
use sg_outside::{Bytes, Memory};
use std::alloc::Global;

/// A list of names.
pub type Names = List<Name>;

impl List<Name> {
    /// Reads the text of a list: `Bad` where it is outside the grammar, or does not rise.
    pub fn parse(alloc: Global, text: &str) -> Result<Names, TextFault>
        ensures ok { IfOk result (λ l. (text.now ≡ names_text l) × IsTrue (is_names l)) }
        ensures bad { result ≡ Err TextFault.Bad → (l : List (List ℕ)) → IsTrue (is_names l)
            → text.now ≢ names_text l }
        ensures outside { ((l : List (List ℕ)) → IsTrue (is_names l) → text.now ≢ names_text l)
            → result ≡ Err TextFault.Bad }
    {
        Ok(List::from_vec(item_list::read_rising(alloc, text)?))
    }

    /// Puts the text at the end. An error leaves the bytes as they were.
    pub fn write(&self, out: &mut Bytes) -> Result<(), Memory>
        ensures ok { OnOk result (out.new ≡ out.old ++ names_text self.now) }
        ensures err { OnErr result (out.new ≡ out.old) }
    {
        item_list::write_list(self.as_slice(), out)
    }
}
