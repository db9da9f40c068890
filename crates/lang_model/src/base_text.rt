//! How base names and domain operators are written.
ghost use Rattle.std.specs.Prelude.{◌≡◌, ◌≤◌, length};
ghost use Rattle.lang_model.specs.Limits.{name_limit};
ghost use Rattle.lang_model.specs.BaseNames.{base_text};

use crate::syntax::Base;

impl Base {
    /// The text of a base name or a domain operator: at most 8 bytes, which are not a name.
    pub fn text(self) -> &'static [u8]
        ensures text { result.now ≡ base_text self }
        ensures some { 1 ≤ length result.now }
        ensures short { length result.now ≤ name_limit }
    {
        match self {
            Base::L => b"L",
            Base::O => b"O",
            Base::I => b"I",
            Base::Ln1 => b"Ln1",
            Base::On1 => b"On1",
            Base::L1n => b"L1n",
            Base::O1n => b"O1n",
            Base::Dom => b"dom",
            Base::Ran => b"ran",
            Base::Trans => b"trans",
            Base::Refl => b"refl",
            Base::Epsi => b"epsi",
            Base::Point => b"point",
            Base::Atom => b"atom",
            Base::Init => b"init",
            Base::Next => b"next",
            Base::Inj => b"inj",
            Base::Empty => b"empty",
            Base::Unival => b"unival",
            Base::Less => b"less",
            Base::Hasse => b"hasse",
            Base::Quot => b"quot",
            Base::Syq => b"syq",
            Base::Eq => b"eq",
            Base::Incl => b"incl",
            Base::Ubd => b"ubd",
            Base::Lbd => b"lbd",
            Base::Least => b"least",
            Base::Greatest => b"greatest",
            Base::Sup => b"sup",
            Base::Inf => b"inf",
            Base::P1 => b"p-1",
            Base::P2 => b"p-2",
            Base::I1 => b"i-1",
            Base::I2 => b"i-2",
        }
    }
}
